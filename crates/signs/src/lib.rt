// What follows a token: where the text continues, and whether a certain sign or bracket is next. These are no methods of
// `Token`: a type's methods stand in its crate, and this one is apart so that an edit of either is checked alone.
#![tactic(auto)]

ghost use Rattle.std.specs.Prelude.{◌≡◌, ◌≤◌};
ghost use Rattle.classes.specs.Class.{open_bracket, comma, ampersand, bar};
ghost use Rattle.classes.specs.Inner.ClassNumber.{class_number};
ghost use Rattle.tokens.specs.Token.{next_of, place_of, token_at};
ghost use Rattle.tokens.specs.Inner.Bounds.{next_of_class};
ghost use Rattle.signs.specs.Inner.Expected.{bracket_class, sign_class, expected};

use classes::{Class, class_end, class_of};
use refusals::{Cause, Refusal};
use tokens::{Token, Word, doubled_at, token_at, unquoted_at};

// A bracket or a comma.
#[derive(Clone, Copy, PartialEq, Eq)]
pub enum Bracket {
    Open,
    Close,
    Comma,
}

// A sign that joins a chain: `&&` or `and`, `||` or `or`.
#[derive(Clone, Copy, PartialEq, Eq)]
pub enum Sign {
    And,
    Or,
}

// The class of its byte.
impl From<Bracket> for Class {
    ghost from_gives = { λ bracket class. (class_number class ≡ bracket_class bracket) × ((open_bracket ≤ class_number class) × (class_number class ≤ comma)) };

    fn from(bracket: Bracket) -> Class {
        match bracket {
            Bracket::Open => Class::Open,
            Bracket::Close => Class::Close,
            Bracket::Comma => Class::Comma,
        }
    }
}

// The class of its first byte, where it is no word.
impl From<Sign> for Class {
    ghost from_gives = { λ sign class. (class_number class ≡ sign_class sign) × ((ampersand ≤ class_number class) × (class_number class ≤ bar)) };

    fn from(sign: Sign) -> Class {
        match sign {
            Sign::And => Class::Ampersand,
            Sign::Or => Class::Bar,
        }
    }
}

// Where the text continues after a token, if it does.
#[tactic(auto, unfolding(tokens::specs::Token::next_of))]
pub fn next_of(t: Token) -> Option<usize>
    ensures { result ≡ next_of t }
{
    match t {
        Token::Open { next, .. }
        | Token::Close { next, .. }
        | Token::Comma { next, .. }
        | Token::And { next, .. }
        | Token::Or { next, .. }
        | Token::Word(Word { next, .. }) => Some(next),
        Token::End { .. } | Token::Fault(_) => None,
    }
}

// The place of a token: its first byte; of the end, the text's length.
#[tactic(auto, unfolding(tokens::specs::Token::place_of))]
pub fn place_of(t: Token) -> usize
    ensures { result ≡ place_of t }
{
    match t {
        Token::End { place }
        | Token::Open { place, .. }
        | Token::Close { place, .. }
        | Token::Comma { place, .. }
        | Token::And { place, .. }
        | Token::Or { place, .. }
        | Token::Word(Word { place, .. })
        | Token::Fault(Refusal { place, .. }) => place,
    }
}

// Where the text continues after a bracket or a comma, if it is the next token. A function for the beginning that `sign_at` has too
// would answer a position and a class, with a promise of its own, and save each two lines.
#[tactic(auto, using(tokens::proofs::Laws::SignLaws::behind_end, tokens::proofs::Laws::SignLaws::behind_bracket, tokens::proofs::Laws::SignLaws::behind_other))]
pub fn bracket_at(text: &[u8], at: usize, bracket: Bracket) -> Option<usize>
    ensures { result ≡ next_of_class (bracket_class bracket) (token_at text.now at) }
{
    let place = class_end(text, at, Class::Blank);
    let class = Class::from(bracket);
    if text.len() <= place {
        return None;
    }
    let found = class_of(text[place]);
    (found == class).then_some(place + 1)
}

// Where the text continues after a bracket or a comma, which is expected at a position; another token is refused for this cause.
pub fn expected_bracket(
    text: &[u8],
    at: usize,
    bracket: Bracket,
    cause: Cause,
) -> Result<usize, Refusal>
    ensures { result ≡ expected (bracket_class bracket) cause (token_at text.now at) }
{
    bracket_at(text, at, bracket).ok_or_else(|| cause.at(place_of(token_at(text, at))))
}

// Where the text continues after a token, if it is this sign.
#[tactic(auto, using(tokens::proofs::Tags::not_sign, crate::proofs::Laws::ClassLaws::sign_least), unfolding(tokens::specs::Inner::Bounds::next_of_class))]
fn next_if(t: Token, sign: Sign) -> Option<usize>
    ensures { result ≡ next_of_class (sign_class sign) t }
{
    match t {
        Token::And { place: _, next } if sign == Sign::And => Some(next),
        Token::Or { place: _, next } if sign == Sign::Or => Some(next),
        _ => None,
    }
}

// Where the text continues after a sign, if it is the next token: `&&` or `and`, `||` or `or`. `text, at` stay two parameters: a struct
// of both, such as the `WordReader` of a crate above, has a clause about its text wherever one is made.
#[tactic(auto, using(tokens::proofs::Laws::SignLaws::behind_end, tokens::proofs::Laws::SignLaws::behind_sign, tokens::proofs::Laws::SignLaws::behind_word, tokens::proofs::Laws::SignLaws::behind_none))]
pub fn sign_at(text: &[u8], at: usize, sign: Sign) -> Option<usize>
    ensures { result ≡ next_of_class (sign_class sign) (token_at text.now at) }
{
    let place = class_end(text, at, Class::Blank);
    let class = Class::from(sign);
    if text.len() <= place {
        return None;
    }
    let found = class_of(text[place]);
    if found == class {
        return doubled_at(text, place).then_some(place + 2);
    }
    if found == Class::Word {
        return next_if(unquoted_at(text, place), sign);
    }
    None
}
