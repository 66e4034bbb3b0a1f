// Calls: what follows a function's opening bracket, up to its closing bracket or its list. `text, at` stay two parameters: a struct of
// both, such as `WordReader`, has a clause about its text wherever one is made.
#![tactic(auto)]

ghost use Rattle.std.specs.Prelude.{◌≤◌, length};
ghost use Rattle.grammar.specs.Grammar.{older_than_start, readable_start, at_least_start, call_start};
ghost use Rattle.grammar.specs.Inner.Starts.{BeginsAt};
ghost use Rattle.calls.specs.Inner.Expected.{WordExpected, CountExpected};

use decimal::count::parse_count;
use durations::duration::parse_duration;
use grammar::{Combinator, Function, PrimaryStart, Test};
use refusals::{Cause, Refusal};
use signs::{Bracket, expected_bracket, place_of};
use tokens::{Token, Word, token_at, word_of};

// The word that is expected at a position. A pattern takes it out, since a token is no Option.
fn expected_word(text: &[u8], at: usize) -> Result<Word, Refusal>
    ensures { WordExpected text.now at result }
{
    let t = token_at(text, at);
    let Token::Word(word) = t else {
        return Err(Cause::MissingArgument.at(place_of(t)));
    };
    Ok(word)
}

// The count that a word must be. Its bounds stay a clause: they are those of a word in this text, and a `Word` holds no text.
fn expected_count(text: &[u8], word: Word) -> Result<u64, Refusal>
    requires { (word.start ≤ word.end) × (word.end ≤ length text.now) }
    ensures { CountExpected text.now word result }
{
    parse_count(word_of(text, word.start, word.end)).ok_or(Cause::BadCount.at(word.place))
}

// `older_than(`: a word is expected, then `)`, and then the word must be a duration.
fn older_than_start(text: &[u8], at: usize) -> Result<PrimaryStart, Refusal>
    ensures { BeginsAt text.now at result (older_than_start text.now) }
{
    let word = expected_word(text, at)?;
    let after = expected_bracket(text, word.next, Bracket::Close, Cause::BracketExpected)?;
    let duration = parse_duration(word_of(text, word.start, word.end));
    let milliseconds = duration.ok_or(Cause::BadDuration.at(word.place))?;
    Ok(PrimaryStart::Leaf {
        test: Test::OlderThan(milliseconds),
        next: after,
    })
}

// `readable(`: a word is expected, which must be a count, then `)`.
fn readable_start(text: &[u8], at: usize) -> Result<PrimaryStart, Refusal>
    ensures { BeginsAt text.now at result (readable_start text.now) }
{
    let word = expected_word(text, at)?;
    let count = expected_count(text, word)?;
    let next = expected_bracket(text, word.next, Bracket::Close, Cause::BracketExpected)?;
    Ok(PrimaryStart::Leaf {
        test: Test::Readable(count),
        next,
    })
}

// `at_least(`: a word is expected, which must be a count, then a comma; its list follows.
fn at_least_start(text: &[u8], place: usize, at: usize) -> Result<PrimaryStart, Refusal>
    ensures { BeginsAt text.now at result (at_least_start text.now place) }
{
    let word = expected_word(text, at)?;
    let least = expected_count(text, word)?;
    let next = expected_bracket(text, word.next, Bracket::Comma, Cause::MissingArgument)?;
    Ok(PrimaryStart::List {
        combinator: Combinator::AtLeast(least),
        place,
        next,
    })
}

// A function's call: the function's word is at `place`, and `at` is the position after its bracket.
pub fn call_start(
    text: &[u8],
    place: usize,
    f: Option<Function>,
    at: usize,
) -> Result<PrimaryStart, Refusal>
    requires { at ≤ length text.now }
    ensures { BeginsAt text.now at result (call_start text.now place f) }
{
    match f {
        Some(Function::OlderThan) => older_than_start(text, at),
        Some(Function::Readable) => readable_start(text, at),
        Some(Function::Any) => Ok(PrimaryStart::List {
            combinator: Combinator::Any,
            place,
            next: at,
        }),
        Some(Function::All) => Ok(PrimaryStart::List {
            combinator: Combinator::All,
            place,
            next: at,
        }),
        Some(Function::AtLeast) => at_least_start(text, place, at),
        None => Err(Cause::UnknownFunction.at(place)),
    }
}
