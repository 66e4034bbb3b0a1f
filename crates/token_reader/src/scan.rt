// A whole text tested: its first foreign byte, and the first of the refusals 4, 5 and 6.
ghost use Rattle.std.specs.Prelude.{◌≡◌};
ghost use Rattle.slices.specs.Text.{run_end};
ghost use Rattle.tokens.specs.Token.{ascii, tokens_from, scan_of};
ghost use Rattle.tokens.specs.Inner.Bounds.{last_of};

use classes::{Class, class_of};
use refusals::Refusal;
use signs::next_of;
use slices::{ascii_from, run_end};
use tokens::{Token, token_at};

// Where the first foreign byte is, or the text's length: a public promise, in the words of the definitions, which take the end of a run.
#[tactic(auto, using(tokens::proofs::Laws::ForeignLaws::none_foreign), unfolding(tokens::specs::Token::ascii))]
pub fn foreign_at(text: &[u8]) -> usize
    ensures { result ≡ run_end ascii text.now 0 }
{
    if ascii_from(text, 0) {
        return text.len();
    }
    run_end(text, 0, |b| class_of(b) != Class::Foreign)
}

// What the last token says of the text.
#[tactic(auto, using(tokens::proofs::Tags::not_fault))]
fn last_of(t: Token) -> Result<(), Refusal>
    ensures { result ≡ last_of t }
{
    match t {
        Token::Fault(f) => Err(f),
        _ => Ok(()),
    }
}

// The whole text for 4 to 6: the leftmost wins.
#[tactic(auto, using(tokens::proofs::Laws::TokenLaws::goes_on, tokens::proofs::Laws::TokenLaws::scan_on, tokens::proofs::Laws::TokenLaws::scan_end))]
pub fn scan(text: &[u8]) -> Result<(), Refusal>
    ensures { result ≡ scan_of (tokens_from text.now 0) }
{
    let mut at = 0;
    loop {
        let t = token_at(text, at);
        let Some(next) = next_of(t) else {
            return last_of(t);
        };
        at = next;
    }
}
