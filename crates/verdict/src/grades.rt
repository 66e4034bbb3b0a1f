// The grade of each leaf: whether it says evict at the largest age with nothing confirmed, or with the write-only stores confirmed.
// Grades are numbers, since `evaluate` compares the numbers of any caller with the least that says evict.
ghost use Rattle.std.specs.Prelude.{◌≡◌, List, ℕ, ◌≤◌, length, None};
ghost use Rattle.rules.specs.Rule.{Leaf};
ghost use Rattle.image.specs.Kinds.{named_kind};
ghost use Rattle.image.specs.Decode.{leaf_meaning, meaning};
ghost use Rattle.image.specs.Inner.Subtree.{OfRule};
ghost use Rattle.store_table.specs.Stores.{Entry, twin_of, entries_in};
ghost use Rattle.verdict.specs.Inner.Grades.{Graded, name_grade, GradedAll};
ghost use Rattle.verdict.specs.Check.{unknown_in};

use crate::OLDEST;
use image::{Image, Node};
use lookup::IndexedTable;
use store_table::WRITE_ONLY;

// The grade of a leaf that is no name: 2 where it says evict with nothing confirmed, else 0. Each kind by its own line.
fn test_grade(leaf: Node) -> u8
    ensures { (s : List ℕ) (n : ℕ) (es : List Entry) (l : Leaf) → meaning s n leaf.kind leaf.arg ≡ leaf_meaning l → (leaf.kind ≡ named_kind → ⊥) → twin_of es ≡ None → Graded l es result }
{
    let evicts = match leaf.kind {
        image::OLDER_THAN => leaf.arg <= OLDEST,
        image::READABLE => leaf.arg <= 0,
        _ => false,
    };
    if evicts { 2 } else { 0 }
}

// The grade of a store's name: 1 where it says evict with the write-only stores confirmed, else 0.
fn name_grade(mode: u8) -> u8
    ensures { result ≡ name_grade mode }
{
    u8::from(mode == WRITE_ONLY)
}

// Writes the grade of each leaf of an image. Answers the first node that names no store, by an Option as the definition does. That no
// two stores share a name is asked here, and is no ghost field of `IndexedTable`, since `find` has never asked it.
pub fn grade_leaves(image: Image, stores: IndexedTable, grades: &mut [u8]) -> Option<usize>
    requires { (image.nodes ≤ length grades.old) × (twin_of (entries_in stores.table.bytes.now) ≡ None) }
    ensures { (OfRule image.entry.bytes.now image.entry.nodes 0 image.entry.nodes (λ ρ. result ≡ unknown_in (entries_in stores.entry.table.bytes.now) ρ 0)) × (result ≡ None → GradedAll image.entry.bytes.now image.entry.nodes grades.new (entries_in stores.entry.table.bytes.now)) }
{
    // That there is room is a clause: a struct would hold the grades lent for writing here, and for reading in `evaluate`.
    for i in 0..image.nodes {
        let node = image.node(i);
        if node.kind == image::NAMED {
            let Some(k) = stores.find(image.name(node.arg)) else {
                return Some(i);
            };
            grades[i] = name_grade(stores.table.mode(k));
        } else {
            grades[i] = test_grade(node);
        }
    }
    None
}
