// What a rule says from its leaves' answers.
#![tactic(auto)]

pub mod leaves;

ghost use Rattle.std.specs.Prelude.{◌≡◌, List, Bool, ℕ, ◌≤◌, length};
ghost use Rattle.rules.specs.Rule.{Join};
ghost use Rattle.image.specs.Decode.{join_meaning, meaning};
ghost use Rattle.image.specs.Inner.Subtree.{NodeRow, OfRule};
ghost use Rattle.evaluate.specs.Evict.{join_says, count_true};
ghost use Rattle.evaluate.specs.Inner.By.{evict_by, says_at};

use image::{Node, NodeTable};

// What a combinator says if `yes` of its `total` children say evict: each kind by its own line.
fn join_says(node: Node, yes: u64, total: u64) -> bool
    ensures { (s : List ℕ) (n : ℕ) (j : Join) (bs : List Bool) → meaning s n node.kind node.arg ≡ join_meaning j → count_true bs ≡ yes → length bs ≡ total → result ≡ join_says j bs }
{
    match node.kind {
        image::AT_LEAST => node.arg <= yes,
        image::ALL => yes == total,
        image::ANY => 1 <= yes,
        _ => false,
    }
}

// What the rule says whose nodes are the `size` from `from` on, where a leaf says evict if its number is at least `least`. Numbers,
// since it serves a decision's two answers and a check's three grades: with types for both it would be generic, and its promise speak of their order.
pub fn evaluate(nodes: NodeTable, from: usize, size: usize, says: &[u8], least: u8) -> bool
    requires { NodeRow nodes.bytes.now nodes.count from size × (nodes.count ≤ length says.now) }
    ensures { OfRule nodes.entry.bytes.now nodes.entry.count from size (λ ρ. result ≡ evict_by (says_at says.now least) ρ from) }
{
    // No struct of `nodes`, `from` and `size`: printing asks of them where the names lie, and this does not. That `says` is long enough is
    // a clause, since it is lent for reading here, and for writing where it is made.
    evaluate_in(nodes.bytes, nodes.count, from, size, says, least)
}

// The same for the bytes and the count of a table. It calls itself for each child, and a table passed by value would be copied into
// each frame: 32 bytes more of stack for each level of a rule.
fn evaluate_in(bytes: &[u8], count: usize, from: usize, size: usize, says: &[u8], least: u8) -> bool
    requires { NodeRow bytes.now count from size × (count ≤ length says.now) }
    ensures { OfRule bytes.now count from size (λ ρ. result ≡ evict_by (says_at says.now least) ρ from) }
{
    let nodes = NodeTable { bytes, count };
    let at = from + size - 1;
    let root = nodes.node(at);
    match root.kind {
        image::NAMED..=image::READABLE => least <= says[at],
        image::AT_LEAST..=image::ANY => {
            let mut yes: u64 = 0;
            let mut total: u64 = 0;
            for child in nodes.children(from, at) {
                if child.node.size == 1 {
                    if least <= says[child.start] {
                        yes += 1;
                    }
                } else {
                    if evaluate_in(bytes, count, child.start, child.node.size, says, least) {
                        yes += 1;
                    }
                }
                total += 1;
            }
            join_says(root, yes, total)
        }
        _ => false,
    }
}
