// A rule checked against the stores: whether they are a table with no name twice, then what the rule says of them.
ghost use Rattle.std.specs.Prelude.{◌≡◌, ◌≤◌, length};
ghost use Rattle.image.specs.Inner.Subtree.{OfRule};
ghost use Rattle.verdict.specs.Check.{check_rule};
ghost use Rattle.verdict.specs.Inner.Grades.{WithStores};

use decide::indexed_stores;
use evaluate::evaluate;
use image::Image;
use lookup::IndexedTable;
use lookup::index::Index;
use refusals::Cause;
use verdict::Verdict;
use verdict::grades::grade_leaves;

// Checks the rule of an image against stores of which no two share a name: an unknown name, then what it evicts on. That none do is no
// ghost field of `IndexedTable`, since `find` has never asked it; room for the grades is asked as in `grade_leaves`.
fn check_names(image: Image, stores: IndexedTable, grades: &mut [u8]) -> Verdict
    requires { (image.nodes ≤ length grades.old) × WithStores stores.table.bytes.now }
    ensures { OfRule image.entry.bytes.now image.entry.nodes 0 image.entry.nodes (λ ρ. result ≡ check_rule ρ stores.entry.table.bytes.now) }
{
    if let Some(place) = grade_leaves(image, stores, grades) {
        return Err(Cause::UnknownStore.at(place));
    }
    let nodes = image.table();
    if evaluate(nodes, 0, nodes.count, grades, 2) {
        return Err(Cause::Unconfirmed.at(0));
    }
    let archived = evaluate(nodes, 0, nodes.count, grades, 1);
    if archived {
        return Err(Cause::ArchiveOnly.at(0));
    }
    Ok(())
}

// Checks the rule of an image, with room for a grade of each node: the stores, then the rule where there are some.
fn check_in(image: Image, stores: &[u8], grades: &mut [u8]) -> Verdict
    requires { image.nodes ≤ length grades.old }
    ensures { OfRule image.entry.bytes.now image.entry.nodes 0 image.entry.nodes (λ ρ. result ≡ check_rule ρ stores.now) }
{
    let mut index = Index::new();
    let stores = indexed_stores(stores, &mut index)?;
    let none = stores.table.count() < 1;
    if none {
        return Ok(());
    }
    check_names(image, stores, grades)
}

// The same, for at most N nodes. An array, since the project has no heap. The number of nodes is not in `Image`, since `grade_leaves`
// takes an image of any number.
fn check_within<const N: usize>(image: Image, stores: &[u8]) -> Verdict
    requires { (image.nodes ≤ N) × (N ≤ 2048) }
    ensures { OfRule image.entry.bytes.now image.entry.nodes 0 image.entry.nodes (λ ρ. result ≡ check_rule ρ stores.now) }
{
    let mut grades = [0u8; N];
    check_in(image, stores, &mut grades)
}

// Checks the rule of an image: with an array of 64 grades where they suffice, since one of 2,048 takes time to clear.
pub fn check_rule(image: Image, stores: &[u8]) -> Verdict
    requires { image.nodes ≤ 2048 }
    ensures { OfRule image.entry.bytes.now image.entry.nodes 0 image.entry.nodes (λ ρ. result ≡ check_rule ρ stores.now) }
{
    if image.nodes <= 64 {
        return check_within::<64>(image, stores);
    }
    check_within::<2048>(image, stores)
}
