// A whole text parsed into nodes: the tests of the text, the rule, and what is left after it.
#![tactic(auto)]

ghost use Rattle.parse_text.specs.Inner.Parsing.{ReadRoom, Ended, Finished};

use nodes::Nodes;
use parser::parse_or;
use refusals::{Cause, Refusal};
use signs::place_of;
use token_reader::scan::{foreign_at, scan};
use token_reader::token_from;
use tokens::Token;

// Parses a text without foreign bytes into nodes that have room for it, and drops those that they held: the rule, then 9. Where it
// reads as a rule, no token of it is a fault.
fn parse_whole<const N: usize>(text: &[u8], nodes: &mut Nodes<N>) -> Result<(), Refusal>
    requires { ReadRoom text.now nodes.old }
    ensures { Ended text.now nodes.new result }
{
    nodes.clear();
    let end = parse_or(text, 0, 0, nodes)?;
    let rest = token_from(text, end);
    let Token::End { place: _ } = rest else {
        return Err(Cause::TrailingToken.at(place_of(rest)));
    };
    Ok(())
}

// Reads a text into nodes that have room for it: 3, then the parse. Where that refuses, the whole text is tested for 4 to 6
// first.
pub fn parse_text<const N: usize>(text: &[u8], nodes: &mut Nodes<N>) -> Result<(), Refusal>
    requires { ReadRoom text.now nodes.old }
    ensures { Finished text.now nodes.new result }
{
    let place = foreign_at(text);
    if place < text.len() {
        return Err(Cause::ForeignByte.at(place));
    }
    let whole = parse_whole(text, nodes);
    let refused = whole.is_err();
    if refused {
        scan(text)?;
    }
    whole
}
