// The parser: or calls and, and calls primary, primary calls or again. Each appends what it reads to the same nodes, and
// answers where the text continues.
#![tactic(auto)]

ghost use Rattle.std.specs.Prelude.{◌+◌, ◌-◌};
ghost use Rattle.tokens.specs.Token.{tokens_from};
ghost use Rattle.grammar.specs.Grammar.{primary_start, or_in, and_in, primary_in};
ghost use Rattle.grammar.specs.Inner.Starts.{left, start_next, Begins};
ghost use Rattle.nodes.specs.Inner.Parses.{Before, ParsedBy};
ghost use Rattle.parser.specs.Inner.Starting.{NextAhead};

use endings::{close_group, close_list, first_argument, next_argument, next_operand};
use grammar::{Combinator, PrimaryStart};
use nodes::Nodes;
use primary_start::primary_start_at;
use refusals::Refusal;
use signs::Sign;

// How the primary at a position begins, where `depth` brackets are open. What it adds to `primary_start_at` is the clause
// `ahead`, by cases: a call inside the cycle gets its proof from such facts alone. Inlined: a call would copy its answer once more.
#[inline(always)]
#[tactic(auto, using(crate::proofs::Laws::PrimaryLaws::next_ahead))]
fn start_at(text: &[u8], at: usize, depth: usize) -> Result<PrimaryStart, Refusal>
    ensures begins { Begins text.now at (at + 1) (left text.now at - 1) result (primary_start text.now depth (tokens_from text.now at)) }
    ensures ahead { NextAhead text.now at (start_next result) }
{
    primary_start_at(text, at, depth)
}

// or: and-expressions, joined by or-signs. `text, at` stay two parameters: with a `WordReader` that holds both, reading was about a sixth
// slower. What is asked, `Before`, relates a text, a position, a depth and the nodes, so no type of one of them has it.
#[cycle(expression)]
pub fn parse_or<const N: usize>(
    text: &[u8],
    at: usize,
    depth: usize,
    nodes: &mut Nodes<N>,
) -> Result<usize, Refusal>
    requires { Before text.now at depth nodes.old }
    ensures { ParsedBy or_in 3 text.now depth at nodes.old nodes.new result }
{
    let first = nodes.n;
    let mut end = parse_and(text, at, depth, nodes)?;
    while let Some(next) = next_operand(text, end, Sign::Or, image::ANY, nodes) {
        end = parse_and(text, next, depth, nodes)?;
        nodes.push_combinator(first, Combinator::Any);
    }
    Ok(end)
}

// and: primaries, joined by and-signs. It and `parse_or` are alike but stay two: three functions in a cycle are a form that the project
// has chosen.
#[cycle(expression)]
pub fn parse_and<const N: usize>(
    text: &[u8],
    at: usize,
    depth: usize,
    nodes: &mut Nodes<N>,
) -> Result<usize, Refusal>
    requires { Before text.now at depth nodes.old }
    ensures { ParsedBy and_in 2 text.now depth at nodes.old nodes.new result }
{
    let first = nodes.n;
    let mut end = parse_primary(text, at, depth, nodes)?;
    while let Some(next) = next_operand(text, end, Sign::And, image::ALL, nodes) {
        end = parse_primary(text, next, depth, nodes)?;
        nodes.push_combinator(first, Combinator::All);
    }
    Ok(end)
}

// primary: a leaf, an expression in brackets, or a function over a list of expressions.
#[cycle(expression)]
pub fn parse_primary<const N: usize>(
    text: &[u8],
    at: usize,
    depth: usize,
    nodes: &mut Nodes<N>,
) -> Result<usize, Refusal>
    requires { Before text.now at depth nodes.old }
    ensures { ParsedBy primary_in 1 text.now depth at nodes.old nodes.new result }
{
    match start_at(text, at, depth)? {
        PrimaryStart::Name { start, end, next } => {
            nodes.push_name(text, start, end);
            Ok(next)
        }
        PrimaryStart::Leaf { test, next } => {
            nodes.push_test(test);
            Ok(next)
        }
        PrimaryStart::Group { next } => {
            let inner = parse_or(text, next, depth + 1, nodes)?;
            close_group(text, inner)
        }
        PrimaryStart::List {
            combinator,
            place,
            next,
        } => {
            let first = nodes.n;
            let start = first_argument(text, place, next)?;
            let mut end = parse_or(text, start, depth + 1, nodes)?;
            while let Some(argument) = next_argument(text, end) {
                end = parse_or(text, argument, depth + 1, nodes)?;
            }
            close_list(text, end, first, combinator, nodes)
        }
    }
}
