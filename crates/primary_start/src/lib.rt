// How a primary begins. `text, at` stay two parameters: a struct of both, such as `WordReader`, has a clause about its text wherever one
// is made. A word's bounds stay a clause: they are those of a word in this text, and a `Word` holds no text.
#![tactic(auto)]

ghost use Rattle.std.specs.Prelude.{◌≡◌, ◌≤◌, ◌<◌, ◌+◌, ◌-◌, length, IfOk, IfErr};
ghost use Rattle.slices.specs.Text.{part};
ghost use Rattle.refusals.specs.Refusals.{refusal};
ghost use Rattle.refusals.specs.declared.Cause.TheVariants.{TooDeep};
ghost use Rattle.tokens.specs.Token.{tokens_from};
ghost use Rattle.grammar.specs.Grammar.{unquoted_start, after, word_start, primary_start};
ghost use Rattle.classes.specs.Class.{open_bracket};
ghost use Rattle.grammar.specs.Inner.Starts.{left, Begins};

use ascii::eq_ignore_ascii_case;
use calls::call_start;
use grammar::{PrimaryStart, Test, function_of};
use refusals::{Cause, Refusal};
use signs::{Bracket, bracket_at, place_of};
use tokens::{Token, Word, token_at, word_of};

// The brackets that may be open at once.
const DEEPEST: usize = 64;

// A word as a store's name. No From: not every word is one, since an unquoted word may be a function or another leaf.
fn name_of(word: Word) -> PrimaryStart
    ensures { result ≡ PrimaryStart.Name word.start word.end word.next }
{
    PrimaryStart::Name {
        start: word.start,
        end: word.end,
        next: word.next,
    }
}

// A bracket that opens at a place, where `depth` brackets are open, is refused where that is too deep.
fn allow_bracket(depth: usize, place: usize) -> Result<(), Refusal>
    ensures room { IfOk result (λ _. depth < 64) }
    ensures deep { IfErr result (λ f. (64 ≤ depth) × (f ≡ refusal TooDeep place)) }
{
    let deep = DEEPEST <= depth;
    if deep {
        return Err(Cause::TooDeep.at(place));
    }
    Ok(())
}

// An unquoted word that begins a primary: a function where a bracket follows it, else a leaf.
fn unquoted_start(text: &[u8], depth: usize, word: Word) -> Result<PrimaryStart, Refusal>
    requires { (word.start ≤ word.end) × ((word.end ≤ word.next) × (word.next ≤ length text.now)) }
    ensures { Begins text.now word.start word.next (left text.now word.next) result (unquoted_start text.now depth word.place (part text.now word.start word.end) (tokens_from text.now word.next) (after open_bracket (tokens_from text.now word.next))) }
{
    let bytes = word_of(text, word.start, word.end);
    let Some(inside) = bracket_at(text, word.next, Bracket::Open) else {
        if eq_ignore_ascii_case(bytes, b"readable") {
            return Ok(PrimaryStart::Leaf {
                test: Test::Readable(1),
                next: word.next,
            });
        }
        return Ok(name_of(word));
    };
    allow_bracket(depth, inside - 1)?;
    call_start(text, word.place, function_of(bytes), inside)
}

// A word that begins a primary: a name where it is quoted, whatever follows.
fn word_start(text: &[u8], depth: usize, word: Word) -> Result<PrimaryStart, Refusal>
    requires { (word.start ≤ word.end) × ((word.end ≤ word.next) × (word.next ≤ length text.now)) }
    ensures { Begins text.now word.start word.next (left text.now word.next) result (word_start text.now depth word.place (part text.now word.start word.end) word.quoted (tokens_from text.now word.next)) }
{
    let named = word.quoted;
    if named {
        return Ok(name_of(word));
    }
    unquoted_start(text, depth, word)
}

// How the primary at a position begins, where `depth` brackets are open. Inlined into the parser, as `start_at` there is.
#[inline(always)]
pub fn primary_start_at(text: &[u8], at: usize, depth: usize) -> Result<PrimaryStart, Refusal>
    ensures { Begins text.now at (at + 1) (left text.now at - 1) result (primary_start text.now depth (tokens_from text.now at)) }
{
    let t = token_at(text, at);
    match t {
        Token::Word(word) => word_start(text, depth, word),
        Token::Open { place, next } => {
            allow_bracket(depth, place)?;
            Ok(PrimaryStart::Group { next })
        }
        _ => Err(Cause::NoExpression.at(place_of(t))),
    }
}
