// What follows an expression that was read: an operand after a chain's sign, a group's closing bracket, a list's arguments.
// `text, at` stay two parameters: a struct of both, such as `WordReader`, has a clause about its text wherever one is made.
#![tactic(auto)]

ghost use Rattle.std.specs.Prelude.{◌≡◌, ◌+◌, ◌≤◌, ◌<◌, IfSome, IfOk};
ghost use Rattle.classes.specs.Class.{close_bracket, comma};
ghost use Rattle.tokens.specs.Token.{token_at};
ghost use Rattle.tokens.specs.Inner.Bounds.{next_of_class};
ghost use Rattle.signs.specs.Inner.Expected.{sign_class};
ghost use Rattle.grammar.specs.Inner.Starts.{join_of, Ahead};
ghost use Rattle.nodes.specs.Inner.Parses.{Long};
ghost use Rattle.endings.specs.Inner.Endings.{continued, group_end, first_argument, ListRoom, list_nodes};

use grammar::Combinator;
use nodes::Nodes;
use refusals::{Cause, Refusal};
use signs::{Bracket, Sign, bracket_at, expected_bracket, sign_at};

// Where a chain's next operand is read, if the chain's sign follows its left side, whose root is dropped where it is of the kind, and
// which the chain continues. Any kind may come with a sign: one that followed from the sign would promise less.
pub fn next_operand<const N: usize>(
    text: &[u8],
    at: usize,
    sign: Sign,
    kind: u32,
    nodes: &mut Nodes<N>,
) -> Option<usize>
    requires { (0 < nodes.old.n) × (nodes.old.n ≤ N) }
    ensures next { result ≡ next_of_class (sign_class sign) (token_at text.now at) }
    ensures nodes { nodes.new ≡ continued (next_of_class (sign_class sign) (token_at text.now at)) kind nodes.old }
    ensures ahead { IfSome result (Ahead text.now at) }
    ensures long { IfSome result (λ next. Long nodes.new) }
    ensures room { (nodes.new.n ≤ nodes.old.n) × ((nodes.old.n ≤ nodes.new.n + 1) × (nodes.new.m ≡ nodes.old.m)) }
{
    let next = sign_at(text, at, sign)?;
    nodes.drop_root(kind);
    Some(next)
}

// Where the text continues after a group or a list, whose last rule ends at a position: its closing bracket is expected there.
#[tactic(auto, using(crate::proofs::Laws::BracketLaws::expected_ahead))]
pub fn close_group(text: &[u8], at: usize) -> Result<usize, Refusal>
    ensures next { result ≡ group_end text.now at }
    ensures ahead { IfOk result (Ahead text.now at) }
{
    expected_bracket(text, at, Bracket::Close, Cause::BracketExpected)
}

// Where the first argument of a list is read, whose function's word is at `place`; an empty list is refused. It answers where, as the
// other endings do and as its public promise says.
pub fn first_argument(text: &[u8], place: usize, next: usize) -> Result<usize, Refusal>
    ensures next { result ≡ first_argument text.now place next }
    ensures same { IfOk result (λ start. start ≡ next) }
{
    if bracket_at(text, next, Bracket::Close).is_some() {
        return Err(Cause::EmptyList.at(place));
    }
    Ok(next)
}

// Where the next argument of a list is read, if a comma follows the last one, which ends at a position.
#[tactic(auto, using(grammar::proofs::Laws::SignTestLaws::test_ahead))]
pub fn next_argument(text: &[u8], at: usize) -> Option<usize>
    ensures next { result ≡ next_of_class comma (token_at text.now at) }
    ensures ahead { IfSome result (Ahead text.now at) }
{
    bracket_at(text, at, Bracket::Comma)
}

// The end of a list whose last argument ends at a position: appends its node, over those from `first` on, where it is closed. `Long`, as
// in `next_operand`, is what the parser's cycle knows of the nodes after the call; without it the proof did not close.
pub fn close_list<const N: usize>(
    text: &[u8],
    at: usize,
    first: usize,
    combinator: Combinator,
    nodes: &mut Nodes<N>,
) -> Result<usize, Refusal>
    requires { ListRoom text.now at first nodes.old }
    ensures long { IfOk result (λ next. Long nodes.new) }
    ensures next { result ≡ group_end text.now at }
    ensures nodes { nodes.new ≡ list_nodes (next_of_class close_bracket (token_at text.now at)) (join_of combinator) first nodes.old }
{
    let next = close_group(text, at)?;
    nodes.push_combinator(first, combinator);
    Ok(next)
}
