// The class of a byte, from a constant table.
#![tactic(auto)]

ghost use Rattle.std.specs.Prelude.{◌≡◌};
ghost use Rattle.slices.specs.Text.{run_end};
ghost use Rattle.classes.specs.Class.{class_of, of_class};
ghost use Rattle.classes.specs.Inner.ClassNumber.{class_number};
ghost use Rattle.classes.specs.Inner.ClassTable.{IsClassTable};

// The classes of bytes.
#[derive(Clone, Copy, PartialEq, Eq)]
pub enum Class {
    Blank,
    Open,
    Close,
    Comma,
    Ampersand,
    Bar,
    Quote,
    Word,
    Foreign,
    Stray,
}

impl Class {
    // The class's number, in the order above. No other crate calls it now: it stays, since it was promised.
    pub fn number(self) -> u8
        ensures { result ≡ class_number self }
    {
        self as u8
    }
}

// One letter for each class, so that the table has eight rows of 32.
const B: Class = Class::Blank;

const O: Class = Class::Open;

const C: Class = Class::Close;

const M: Class = Class::Comma;

const A: Class = Class::Ampersand;

const R: Class = Class::Bar;

const Q: Class = Class::Quote;

const W: Class = Class::Word;

const F: Class = Class::Foreign;

const S: Class = Class::Stray;

static CLASSES: [Class; 256] = [
    S, S, S, S, S, S, S, S, S, B, B, B, B, B, S, S, S, S, S, S, S, S, S, S, S, S, S, S, S, S, S, S,
    B, S, Q, S, S, S, A, Q, O, C, S, S, M, W, W, S, W, W, W, W, W, W, W, W, W, W, S, S, S, S, S, S,
    S, W, W, W, W, W, W, W, W, W, W, W, W, W, W, W, W, W, W, W, W, W, W, W, W, W, W, S, S, S, S, W,
    S, W, W, W, W, W, W, W, W, W, W, W, W, W, W, W, W, W, W, W, W, W, W, W, W, W, W, S, R, S, S, S,
    F, F, F, F, F, F, F, F, F, F, F, F, F, F, F, F, F, F, F, F, F, F, F, F, F, F, F, F, F, F, F, F,
    F, F, F, F, F, F, F, F, F, F, F, F, F, F, F, F, F, F, F, F, F, F, F, F, F, F, F, F, F, F, F, F,
    F, F, F, F, F, F, F, F, F, F, F, F, F, F, F, F, F, F, F, F, F, F, F, F, F, F, F, F, F, F, F, F,
    F, F, F, F, F, F, F, F, F, F, F, F, F, F, F, F, F, F, F, F, F, F, F, F, F, F, F, F, F, F, F, F,
];

// The table of the classes of all bytes.
#[tactic(auto, unfolding(crate::specs::Inner::ClassTable::faults))]
pub fn table() -> &'static [Class; 256]
    ensures { IsClassTable result.now }
{
    &CLASSES
}

// The class of a byte.
#[tactic(auto, using(crate::proofs::Laws::ClassLaws::table_at))]
pub fn class_of(b: u8) -> Class
    ensures { class_number result ≡ class_of b }
{
    table()[usize::from(b)]
}

// Whether a byte is of this class.
#[tactic(auto, unfolding(crate::specs::Class::of_class))]
fn is_of(b: u8, class: Class) -> bool
    ensures { result ≡ of_class (class_number class) b }
{
    class_of(b) == class
}

// Where the run of bytes of this class that begins at a position of the text ends. The first byte is looked at before the loop, which
// then keeps the table's address: most runs of blanks are empty, and long ones took a quarter more time.
#[tactic(auto, using(slices::proofs::Laws::TextLaws::end_out, slices::proofs::Laws::TextLaws::end_stop))]
pub fn class_end(text: &[u8], at: usize, class: Class) -> usize
    ensures { result ≡ run_end (of_class (class_number class)) text.now at }
{
    if text.len() <= at {
        return at;
    }
    if !is_of(text[at], class) {
        return at;
    }
    slices::run_end(text, at, |b| is_of(b, class))
}

// Where the run of bytes whose class has this number ends: at once where no class has it.
// No function calls it now: it stays, since it was promised.
pub fn class_end_of(text: &[u8], at: usize, number: u8) -> usize
    ensures { result ≡ run_end (of_class number) text.now at }
{
    slices::run_end(text, at, |byte| class_of(byte).number() == number)
}
