// The tokens of a text: which token is at a position. No struct holds text and position: it would take `p < length text` from four
// functions, but give each that makes one a clause about its text, as token_reader's `WordReader` shows.
#![tactic(auto)]

ghost use Rattle.std.specs.Prelude.{◌≡◌, ◌≤◌, ◌<◌, length};
ghost use Rattle.slices.specs.Text.{part};
ghost use Rattle.tokens.specs.Token.{quoted_at, unquoted_at, doubled, sign_at, token_at};

use ascii::eq_ignore_ascii_case;
use classes::{Class, class_end, class_of};
use refusals::{Cause, Refusal};
use slices::mark_at;

// A word: its place, its part of the text without its marks, whether it has marks, and where the text continues after it.
#[derive(Clone, Copy, PartialEq, Eq)]
pub struct Word {
    pub place: usize,
    pub start: usize,
    pub end: usize,
    pub quoted: bool,
    pub next: usize,
}

// A token. A case holds its place and where the text continues: in a struct around them the end and a fault would have the latter too.
// A fault, which is the refusal 4, 5 or 6, is a case and no Err: the tokens of a text end with it, as the definitions list them.
#[derive(Clone, Copy, PartialEq, Eq)]
pub enum Token {
    End { place: usize },
    Open { place: usize, next: usize },
    Close { place: usize, next: usize },
    Comma { place: usize, next: usize },
    And { place: usize, next: usize },
    Or { place: usize, next: usize },
    Word(Word),
    Fault(Refusal),
}

// A word, handed back as that part of the text: a rule of the project names this form.
#[tactic(auto, unfolding(slices::specs::Text::part))]
pub fn word_of(text: &[u8], start: usize, end: usize) -> &[u8]
    requires { (start ≤ end) × (end ≤ length text.now) }
    ensures { result.now ≡ part text.now start end }
{
    &text[start..end]
}

// The quoted word whose opening mark is at p.
#[tactic(auto, unfolding(crate::specs::Token::quoted_at, crate::specs::Token::quoted_to))]
fn quoted_at(text: &[u8], p: usize, mark: u8) -> Token
    requires { p < length text.now }
    ensures { result ≡ quoted_at text.now p mark }
{
    let end = mark_at(text, p + 1, mark);
    if end < text.len() {
        return Token::Word(Word {
            place: p,
            start: p + 1,
            end,
            quoted: true,
            next: end + 1,
        });
    }
    Token::Fault(Cause::OpenQuote.at(p))
}

// The unquoted word that begins at p: `and` and `or`, in any case of letters, are the signs.
#[tactic(auto, using(slices::proofs::Laws::TextLaws::end_within), unfolding(crate::specs::Token::unquoted_at, crate::specs::Token::unquoted_to))]
pub fn unquoted_at(text: &[u8], p: usize) -> Token
    requires { p < length text.now }
    ensures { result ≡ unquoted_at text.now p }
{
    let end = class_end(text, p, Class::Word);
    let word = word_of(text, p, end);
    if eq_ignore_ascii_case(word, b"and") {
        return Token::And {
            place: p,
            next: end,
        };
    }
    if eq_ignore_ascii_case(word, b"or") {
        return Token::Or {
            place: p,
            next: end,
        };
    }
    Token::Word(Word {
        place: p,
        start: p,
        end,
        quoted: false,
        next: end,
    })
}

// Whether the byte at p is followed by the same byte.
#[tactic(auto, unfolding(crate::specs::Token::doubled))]
pub fn doubled_at(text: &[u8], p: usize) -> bool
    requires { p < length text.now }
    ensures { result ≡ doubled text.now p }
{
    p + 1 < text.len() && text[p + 1] == text[p]
}

// This sign, whose first byte is at p, where its second byte follows; else it is half a sign.
fn sign_at(text: &[u8], p: usize, sign: Token) -> Token
    requires { p < length text.now }
    ensures { result ≡ sign_at text.now p sign }
{
    if doubled_at(text, p) {
        return sign;
    }
    Token::Fault(Cause::HalfSign.at(p))
}

// The first token from a position on.
pub fn token_at(text: &[u8], at: usize) -> Token
    ensures { result ≡ token_at text.now at }
{
    let place = class_end(text, at, Class::Blank);
    if text.len() <= place {
        return Token::End { place: text.len() };
    }
    let b = text[place];
    let next = place + 1;
    match class_of(b) {
        Class::Open => Token::Open { place, next },
        Class::Close => Token::Close { place, next },
        Class::Comma => Token::Comma { place, next },
        Class::Ampersand => sign_at(
            text,
            place,
            Token::And {
                place,
                next: place + 2,
            },
        ),
        Class::Bar => sign_at(
            text,
            place,
            Token::Or {
                place,
                next: place + 2,
            },
        ),
        Class::Quote => quoted_at(text, place, b),
        Class::Word => unquoted_at(text, place),
        _ => Token::Fault(Cause::StrayCharacter.at(place)),
    }
}
