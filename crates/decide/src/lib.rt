// Deciding: whether the rule that an image holds says evict.
#![tactic(auto)]

ghost use Rattle.std.specs.Prelude.{◌≡◌, ◌≤◌, None, Some, MatchResult};
ghost use Rattle.image.specs.Inner.Subtree.{OfRule};
ghost use Rattle.store_table.specs.Inner.Index.{Blank};
ghost use Rattle.evaluate.specs.Evict.{evict};
ghost use Rattle.evaluate.specs.Inner.Known.{env_in};
ghost use Rattle.decide.specs.Inner.StoresTest.{stores_test};
ghost use Rattle.decide.specs.Decide.{decide_of};

use confirmed::{Confirmed, mark_confirmed, ready_count};
use evaluate::evaluate;
use evaluate::leaves::Environment;
use image::Image;
use image_test::checked;
use lookup::IndexedTable;
use lookup::index::Index;
use refusals::{Cause, Refusal};
use store_index::twin_of;
use store_table::Table;

// What deciding answers: whether a recording goes or stays.
#[derive(Clone, Copy, PartialEq, Eq)]
pub enum Decision {
    Evict,
    Keep,
}

// What the rule of an image of at most N nodes says. An array, since the project has no heap. The number of nodes is not in `Image`,
// since `say_leaves` and `grade_leaves` take images of any number.
fn rule_says_within<const N: usize>(image: Image, environment: Environment) -> bool
    requires { (image.nodes ≤ N) × (N ≤ 2048) }
    ensures { OfRule image.entry.bytes.now image.entry.nodes 0 image.entry.nodes (λ ρ. result ≡ evict ρ (env_in environment.entry.confirmed.list.bytes.now environment.entry.age environment.entry.ready)) }
{
    let mut says = [0u8; N];
    environment.say_leaves(image, &mut says);
    evaluate(image.table(), 0, image.nodes, &says, 1)
}

// What the rule of an image says: with an array of 64 numbers where they suffice, since one of 2,048 takes time to clear.
fn rule_says(image: Image, environment: Environment) -> bool
    requires { image.nodes ≤ 2048 }
    ensures { OfRule image.entry.bytes.now image.entry.nodes 0 image.entry.nodes (λ ρ. result ≡ evict ρ (env_in environment.entry.confirmed.list.bytes.now environment.entry.age environment.entry.ready)) }
{
    if image.nodes <= 64 {
        return rule_says_within::<64>(image, environment);
    }
    rule_says_within::<2048>(image, environment)
}

// The table that stores are, indexed; or the refusal of what is no table, or has two stores of one name.
pub fn indexed_stores<'a>(
    stores: &'a [u8],
    index: &'a mut Index,
) -> Result<IndexedTable<'a>, Refusal>
    requires { Blank index.old.slots }
    ensures { MatchResult result (λ t. (stores_test stores.now ≡ None) × (t.table.bytes.now ≡ stores.now)) (λ f. stores_test stores.now ≡ Some f) }
{
    let table = Table::of_stores(stores).ok_or(Cause::BadStoreTable.at(0))?;
    if let Some(place) = twin_of(table, index) {
        return Err(Cause::TwinName.at(place));
    }
    Ok(IndexedTable { table, index })
}

// Decides on the rule of an image: evict or keep, or the first of the refusals of image, stores and list.
pub fn decide<'a>(
    image: &[u8],
    stores: &'a [u8],
    age: u64,
    list: &'a [u8],
) -> Result<Decision, Refusal>
    ensures { result ≡ decide_of image.now stores.now age list.now }
{
    let image = checked(image).ok_or(Cause::BadImage.at(0))?;
    let mut index = Index::new();
    let stores = indexed_stores(stores, &mut index)?;
    let list = Table::of_list(list).ok_or(Cause::BadConfirmedList.at(0))?;
    let mut marks = [false; 64];
    mark_confirmed(stores, list, &mut marks);
    let confirmed = Confirmed {
        stores,
        list,
        marks: &marks,
    };
    let environment = Environment {
        age,
        confirmed,
        ready: ready_count(stores.table, &marks),
    };
    if rule_says(image, environment) {
        Ok(Decision::Evict)
    } else {
        Ok(Decision::Keep)
    }
}
