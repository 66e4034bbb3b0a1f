// The text of a rule, written from its end.
ghost use Rattle.std.specs.Prelude.{◌≤◌, length};
ghost use Rattle.slices.specs.Text.{WrittenAt};
ghost use Rattle.image.specs.Inner.Subtree.{OfRule, ValidSubtree};
ghost use Rattle.print_text.specs.Print.{text_of};

use image::{NodeTable, is_leaf};
use print_pieces::{prepend_back, prepend_front, prepend_leaf, prepend_opening};

// The rule whose nodes are the `size` from `from` on. A struct of `nodes`, `from` and `size`
// for `evaluate` too could not hold where the names lie; one of `text` and `end` would add what it keeps of them to each clause.
pub fn put_rule(nodes: NodeTable, from: usize, size: usize, text: &mut [u8], end: usize) -> usize
    requires { ValidSubtree nodes.bytes.now nodes.count from size × (OfRule nodes.bytes.now nodes.count from size (λ ρ. length (text_of ρ) ≤ end)) × (end ≤ length text.old) }
    ensures { OfRule nodes.entry.bytes.now nodes.entry.count from size (λ ρ. WrittenAt text.old text.new result end (text_of ρ)) }
{
    put_rule_in(nodes.bytes, nodes.count, from, size, text, end)
}

// The same for the bytes and the count of a table: the size falls at each call. A table passed by value would be copied into each
// frame: 48 bytes more of stack for each level of a rule.
fn put_rule_in(
    bytes: &[u8],
    count: usize,
    from: usize,
    size: usize,
    text: &mut [u8],
    end: usize,
) -> usize
    requires { ValidSubtree bytes.now count from size × (OfRule bytes.now count from size (λ ρ. length (text_of ρ) ≤ end)) × (end ≤ length text.old) }
    ensures { OfRule bytes.now count from size (λ ρ. WrittenAt text.old text.new result end (text_of ρ)) }
{
    let nodes = NodeTable { bytes, count };
    let at = from + size - 1;
    let root = nodes.node(at);
    if is_leaf(root.kind) {
        return prepend_leaf(bytes, count, root, text, end);
    }
    let mut to = end;
    for child in nodes.children(from, at) {
        let node = child.node;
        to = prepend_back(root.kind, node.kind, child.end == at, text, to);
        if is_leaf(node.kind) {
            to = prepend_leaf(bytes, count, node, text, to);
        } else {
            to = put_rule_in(bytes, count, child.start, node.size, text, to);
        }
        to = prepend_front(root.kind, node.kind, text, to);
    }
    prepend_opening(root, text, to)
}
