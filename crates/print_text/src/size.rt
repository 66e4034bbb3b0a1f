// How many bytes the text of a rule has. A walk of its own, beside the one in `print` that writes them: one walk for both would take
// a trait of outputs, one of them around a lent text, and is no shorter.
ghost use Rattle.std.specs.Prelude.{◌≡◌, false, ◌+◌, ◌≤◌, length};
ghost use Rattle.image.specs.Kinds.{named_kind};
ghost use Rattle.image.specs.Inner.Subtree.{OfRule, ValidSubtree, NameInside};
ghost use Rattle.print_text.specs.Inner.Pieces.{bracketed_of, leaf_in, opening_of, after_child_of, front_of, back_of};
ghost use Rattle.print_text.specs.Print.{text_of};

use decimal::digits::digit_count;
use duration_text::duration_size;
use image::{Node, NodeTable, is_leaf};

// Whether a child of one kind is in brackets under a combinator of another. The two kinds are parameters, here and below: a struct of
// them would be made for each child, and the clauses would name its two fields.
#[tactic(auto, unfolding(crate::specs::Inner::Pieces::bracketed_of))]
pub fn is_bracketed(kind: u32, child: u32) -> bool
    ensures { result ≡ bracketed_of kind child }
{
    kind == image::ALL && child == image::ANY
}

// The bytes of a leaf. That a name lies in the bytes is asked where it is read, since a `Node` does not hold its image.
#[tactic(auto, using(decimal::proofs::Laws::DigitsLaws::digits_short, duration_text::proofs::Laws::DurationTextLaws::duration_short), unfolding(crate::specs::Inner::Pieces::leaf_text_of, image::specs::Decode::meaning))]
fn leaf_size(nodes: NodeTable, leaf: Node) -> usize
    requires { leaf.kind ≡ named_kind → NameInside nodes.bytes.now nodes.count leaf.arg }
    ensures { result ≡ length (leaf_in nodes.entry.bytes.now nodes.entry.count leaf.kind leaf.arg) }
{
    match leaf.kind {
        image::NAMED => nodes.name(leaf.arg).len(),
        image::OLDER_THAN => 12 + duration_size(leaf.arg),
        image::READABLE => 10 + digit_count(leaf.arg),
        _ => 0,
    }
}

// The bytes before a combinator's children.
#[tactic(auto, using(decimal::proofs::Laws::DigitsLaws::digits_short), unfolding(crate::specs::Inner::Pieces::opening_of))]
fn opening_size(root: Node) -> usize
    ensures { result ≡ length (opening_of root.kind root.arg) }
{
    match root.kind {
        image::AT_LEAST => 11 + digit_count(root.arg),
        _ => 0,
    }
}

// The bytes after a child, the last one or an earlier one. Numbers beside the literals of `print_pieces`: with one table of the
// pieces for both, printing took a sixth longer.
#[tactic(auto, unfolding(crate::specs::Inner::Pieces::after_child_of))]
fn after_size(kind: u32, last: bool) -> usize
    ensures { result ≡ length (after_child_of kind last) }
{
    // `last` is an argument, as in `after_child_of`: two functions would each state half of that definition.
    if last {
        match kind {
            image::AT_LEAST => 1,
            _ => 0,
        }
    } else {
        match kind {
            image::AT_LEAST => 2,
            image::ALL => 4,
            image::ANY => 4,
            _ => 0,
        }
    }
}

// The bytes around a child's own text: brackets, and what comes after it. `between` is what comes after each child but the last.
#[tactic(auto, using(crate::proofs::Laws::PiecesLaws::after_child_short), unfolding(crate::specs::Inner::Pieces::front_of, crate::specs::Inner::Pieces::back_of))]
fn around_size(kind: u32, child: u32, last: bool, between: usize) -> usize
    requires { between ≡ length (after_child_of kind false) }
    ensures { result ≡ length (front_of kind child) + length (back_of kind child last) }
{
    if is_bracketed(kind, child) {
        if last {
            return 2 + after_size(kind, last);
        }
        return 2 + between;
    }
    if last {
        return after_size(kind, last);
    }
    between
}

// The bytes of the rule whose nodes are the `size` from `from` on. A struct of `nodes`, `from` and `size`
// for `evaluate` too could hold neither where the names lie nor that there are at most 2,048 nodes, which `evaluate` does not ask.
pub fn text_size(nodes: NodeTable, from: usize, size: usize) -> usize
    requires { ValidSubtree nodes.bytes.now nodes.count from size × (nodes.count ≤ 2048) }
    ensures { OfRule nodes.entry.bytes.now nodes.entry.count from size (λ ρ. result ≡ length (text_of ρ)) }
{
    text_size_in(nodes.bytes, nodes.count, from, size)
}

// The same for the bytes and the count of a table: the size falls at each call. A table passed by value would be copied into each
// frame: 32 bytes more of stack for each level of a rule.
fn text_size_in(bytes: &[u8], count: usize, from: usize, size: usize) -> usize
    requires { ValidSubtree bytes.now count from size × (count ≤ 2048) }
    ensures { OfRule bytes.now count from size (λ ρ. result ≡ length (text_of ρ)) }
{
    let nodes = NodeTable { bytes, count };
    let at = from + size - 1;
    let root = nodes.node(at);
    if is_leaf(root.kind) {
        return leaf_size(nodes, root);
    }
    let mut total = opening_size(root);
    let between = after_size(root.kind, false);
    for child in nodes.children(from, at) {
        let node = child.node;
        total += around_size(root.kind, node.kind, child.end == at, between);
        if is_leaf(node.kind) {
            total += leaf_size(nodes, node);
        } else {
            total += text_size_in(bytes, count, child.start, node.size);
        }
    }
    total
}
