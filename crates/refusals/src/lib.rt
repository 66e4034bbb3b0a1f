// The refusals: a number, a word and a meaning for each cause.
#![tactic(auto)]

ghost use Rattle.std.specs.Prelude.{◌≡◌};
ghost use Rattle.refusals.specs.Refusals.{number, word, meaning, refusal};
ghost use Rattle.refusals.specs.Inner.Rows.{cause_of, row_of, IsRow};

// Why a call refuses what it is given.
#[derive(Clone, Copy, PartialEq, Eq)]
pub enum Cause {
    // short buffer: lent output too short.
    ShortBuffer = 1,
    // long text: over 2,048 bytes.
    LongText = 2,
    // foreign byte: a byte of 128 or more in the text.
    ForeignByte = 3,
    // half sign: `&` or `|` not followed by the same sign.
    HalfSign = 4,
    // open quote: no closing mark of the same sort.
    OpenQuote = 5,
    // stray character: none of the classes.
    StrayCharacter = 6,
    // no expression: expression expected.
    NoExpression = 7,
    // open bracket: `)` expected.
    BracketExpected = 8,
    // trailing token: tokens left after the rule.
    TrailingToken = 9,
    // unknown function: name before `(` not known.
    UnknownFunction = 10,
    // missing argument: count, duration or the comma after a count expected.
    MissingArgument = 11,
    // bad count: word is no count.
    BadCount = 12,
    // bad duration: word is no duration.
    BadDuration = 13,
    // empty list: list function without arguments.
    EmptyList = 14,
    // too deep: a bracket opened while 64 are open.
    TooDeep = 15,
    // bad image: layout broken.
    BadImage = 16,
    // bad store table: layout broken.
    BadStoreTable = 17,
    // twin name: two stores of one name.
    TwinName = 18,
    // bad confirmed list: layout broken.
    BadConfirmedList = 19,
    // unknown store: rule names a store not in the table.
    UnknownStore = 20,
    // unconfirmed: evicts with nothing confirmed.
    Unconfirmed = 21,
    // archive only: evicts on write-only stores alone.
    ArchiveOnly = 22,
}

// A refusal: the place that its cause gives it, and the cause. Where it gives none the place is 0 and no None: document 01 has it so,
// and C is answered it. The place comes first, where a result that is a position has it too: with the cause first the parser writes
// the two in pieces, and reads a rule of many names in a third more time.
#[derive(Clone, Copy, PartialEq, Eq)]
pub struct Refusal {
    pub place: usize,
    pub cause: Cause,
}

impl Cause {
    // The cause's number: the cast gives the one beside the cause above, and a `From<Cause> for u8` would be this cast again.
    pub fn number(self) -> u8
        ensures { result ≡ number self }
    {
        self as u8
    }

    // The cause of a number, or None where no refusal has it.
    #[tactic(auto, unfolding(crate::specs::Inner::Rows::cause_of))]
    pub fn of_number(number: u8) -> Option<Cause>
        ensures { result ≡ cause_of number }
    {
        match number {
            1 => Some(Cause::ShortBuffer),
            2 => Some(Cause::LongText),
            3 => Some(Cause::ForeignByte),
            4 => Some(Cause::HalfSign),
            5 => Some(Cause::OpenQuote),
            6 => Some(Cause::StrayCharacter),
            7 => Some(Cause::NoExpression),
            8 => Some(Cause::BracketExpected),
            9 => Some(Cause::TrailingToken),
            10 => Some(Cause::UnknownFunction),
            11 => Some(Cause::MissingArgument),
            12 => Some(Cause::BadCount),
            13 => Some(Cause::BadDuration),
            14 => Some(Cause::EmptyList),
            15 => Some(Cause::TooDeep),
            16 => Some(Cause::BadImage),
            17 => Some(Cause::BadStoreTable),
            18 => Some(Cause::TwinName),
            19 => Some(Cause::BadConfirmedList),
            20 => Some(Cause::UnknownStore),
            21 => Some(Cause::Unconfirmed),
            22 => Some(Cause::ArchiveOnly),
            _ => None,
        }
    }

    // The refusal of this cause at a place.
    pub fn at(self, place: usize) -> Refusal
        ensures { result ≡ refusal self place }
    {
        Refusal { cause: self, place }
    }

    // The cause in a word or two: a text that is copied into lent memory, where Display would want a formatter.
    pub fn word(self) -> &'static str
        ensures { result.now ≡ word self }
    {
        match self {
            Cause::ShortBuffer => "short buffer",
            Cause::LongText => "long text",
            Cause::ForeignByte => "foreign byte",
            Cause::HalfSign => "half sign",
            Cause::OpenQuote => "open quote",
            Cause::StrayCharacter => "stray character",
            Cause::NoExpression => "no expression",
            Cause::BracketExpected => "open bracket",
            Cause::TrailingToken => "trailing token",
            Cause::UnknownFunction => "unknown function",
            Cause::MissingArgument => "missing argument",
            Cause::BadCount => "bad count",
            Cause::BadDuration => "bad duration",
            Cause::EmptyList => "empty list",
            Cause::TooDeep => "too deep",
            Cause::BadImage => "bad image",
            Cause::BadStoreTable => "bad store table",
            Cause::TwinName => "twin name",
            Cause::BadConfirmedList => "bad confirmed list",
            Cause::UnknownStore => "unknown store",
            Cause::Unconfirmed => "unconfirmed",
            Cause::ArchiveOnly => "archive only",
        }
    }

    // What the cause means to a person.
    pub fn meaning(self) -> &'static str
        ensures { result.now ≡ meaning self }
    {
        match self {
            Cause::ShortBuffer => "the lent output is too short",
            Cause::LongText => "the rule has more than 2,048 bytes",
            Cause::ForeignByte => "this byte is not ASCII",
            Cause::HalfSign => "this sign stands alone: write `&&` or `||`",
            Cause::OpenQuote => "this quote is not closed",
            Cause::StrayCharacter => "nothing in a rule begins with this character",
            Cause::NoExpression => "an expression is expected here",
            Cause::BracketExpected => "a `)` is expected here",
            Cause::TrailingToken => "the rule is complete before this",
            Cause::UnknownFunction => "there is no function of this name",
            Cause::MissingArgument => "a count, a duration or a comma is expected here",
            Cause::BadCount => "this is not a count",
            Cause::BadDuration => "this is not a duration, as 30d or 12h30m is",
            Cause::EmptyList => "this function needs an argument",
            Cause::TooDeep => "64 brackets are open already",
            Cause::BadImage => "the bytes are not the image of a rule",
            Cause::BadStoreTable => "the bytes are not a table of stores",
            Cause::TwinName => "two stores have this name",
            Cause::BadConfirmedList => "the bytes are not a list of confirmed stores",
            Cause::UnknownStore => "the rule names a store that is not in the table",
            Cause::Unconfirmed => "the rule says evict with nothing confirmed",
            Cause::ArchiveOnly => "the rule says evict with only write-only stores confirmed",
        }
    }
}

// A row of the table: a number, its word and what that means to a person.
#[derive(Clone, Copy)]
pub struct Row {
    pub number: u8,
    pub word: &'static str,
    pub meaning: &'static str,
}

// The row of a number; both texts are empty where no refusal has it. No function calls it now: it stays, since it was promised.
pub fn row_of(number: u8) -> Row
    ensures { IsRow (row_of number) result }
{
    match Cause::of_number(number) {
        Some(cause) => Row {
            number,
            word: cause.word(),
            meaning: cause.meaning(),
        },
        None => Row {
            number,
            word: "",
            meaning: "",
        },
    }
}
