// The pieces of a rule's text, written from the end. By hand, and not by `Display`, which writes from the front and can fail. The kinds
// of a combinator and a child are parameters: a struct would be made for each child, and the clauses would name its two fields.
#![tactic(auto)]

ghost use Rattle.std.specs.Prelude.{◌≡◌, ◌≤◌, length};
ghost use Rattle.slices.specs.Text.{WrittenAt};
ghost use Rattle.image.specs.Kinds.{named_kind};
ghost use Rattle.image.specs.Inner.Subtree.{NameInside};
ghost use Rattle.print_text.specs.Inner.Pieces.{leaf_in, opening_of, after_child_of, back_of, front_of};

use decimal::digits::prepend_digits;
use duration_text::format_duration;
use image::{Node, name_of};
use print_text::size::is_bracketed;
use slices::prepend;

// Writes a leaf's text so that it ends at a position, and answers where it begins; the functions below do so with other pieces. A
// struct that holds the lent text and the position would add what it keeps of them to each clause.
#[tactic(auto, using(slices::proofs::Laws::WrittenLaws::written_at_none), unfolding(print_text::specs::Inner::Pieces::leaf_text_of, print_text::specs::Print::leaf_text, image::specs::Decode::meaning))]
pub fn prepend_leaf(image: &[u8], n: usize, leaf: Node, text: &mut [u8], end: usize) -> usize
    requires { (leaf.kind ≡ named_kind → NameInside image.now n leaf.arg) × (length (leaf_in image.now n leaf.kind leaf.arg) ≤ end) × (end ≤ length text.old) }
    ensures { WrittenAt text.old text.new result end (leaf_in image.now n leaf.kind leaf.arg) }
{
    // Of bytes with a leaf that is no name nothing is asked: so there is no `NodeTable`, and a clause for a name alone.
    match leaf.kind {
        image::NAMED => prepend(text, end, name_of(image, n, leaf.arg)),
        image::OLDER_THAN => {
            let closed = prepend(text, end, b")");
            let at = format_duration(text, closed, leaf.arg);
            prepend(text, at, b"older_than(")
        }
        image::READABLE => {
            let closed = prepend(text, end, b")");
            let at = prepend_digits(text, closed, leaf.arg);
            prepend(text, at, b"readable(")
        }
        _ => end,
    }
}

// What comes before a combinator's children.
#[tactic(auto, using(slices::proofs::Laws::WrittenLaws::written_at_none), unfolding(print_text::specs::Inner::Pieces::opening_of, print_text::specs::Print::opening))]
pub fn prepend_opening(root: Node, text: &mut [u8], end: usize) -> usize
    requires { (length (opening_of root.kind root.arg) ≤ end) × (end ≤ length text.old) }
    ensures { WrittenAt text.old text.new result end (opening_of root.kind root.arg) }
{
    match root.kind {
        image::AT_LEAST => {
            let comma = prepend(text, end, b", ");
            let at = prepend_digits(text, comma, root.arg);
            prepend(text, at, b"at_least(")
        }
        _ => end,
    }
}

// What comes after a child, the last one or an earlier one. `last` is found for each child, and the definition has it: with two
// functions the `if` would move into `prepend_back`.
#[tactic(auto, using(slices::proofs::Laws::WrittenLaws::written_at_none), unfolding(print_text::specs::Inner::Pieces::after_child_of, print_text::specs::Print::after_child))]
fn prepend_after(kind: u32, last: bool, text: &mut [u8], end: usize) -> usize
    requires { (length (after_child_of kind last) ≤ end) × (end ≤ length text.old) }
    ensures { WrittenAt text.old text.new result end (after_child_of kind last) }
{
    if last {
        return match kind {
            image::AT_LEAST => prepend(text, end, b")"),
            _ => end,
        };
    }
    match kind {
        image::AT_LEAST => prepend(text, end, b", "),
        image::ALL => prepend(text, end, b" && "),
        image::ANY => prepend(text, end, b" || "),
        _ => end,
    }
}

// What comes after a child, its closing bracket included.
#[tactic(auto, unfolding(print_text::specs::Inner::Pieces::back_of, print_text::specs::Print::bracket))]
pub fn prepend_back(kind: u32, child: u32, last: bool, text: &mut [u8], end: usize) -> usize
    requires { (length (back_of kind child last) ≤ end) × (end ≤ length text.old) }
    ensures { WrittenAt text.old text.new result end (back_of kind child last) }
{
    let at = prepend_after(kind, last, text, end);
    if is_bracketed(kind, child) {
        return prepend(text, at, b")");
    }
    at
}

// The opening bracket of a child that has one.
#[tactic(auto, using(slices::proofs::Laws::WrittenLaws::written_at_none), unfolding(print_text::specs::Inner::Pieces::front_of, print_text::specs::Print::bracket))]
pub fn prepend_front(kind: u32, child: u32, text: &mut [u8], end: usize) -> usize
    requires { (length (front_of kind child) ≤ end) × (end ≤ length text.old) }
    ensures { WrittenAt text.old text.new result end (front_of kind child) }
{
    if is_bracketed(kind, child) {
        return prepend(text, end, b"(");
    }
    end
}
