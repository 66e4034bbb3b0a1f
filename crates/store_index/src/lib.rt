// The index of a table's names built, and two stores of one name found on the way.
#![tactic(auto)]

ghost use Rattle.std.specs.Prelude.{◌≡◌, None};
ghost use Rattle.store_table.specs.Stores.{entries_in, twin_of};
ghost use Rattle.store_table.specs.Inner.Index.{Blank, IndexedAll};

use lookup::hash::hash_of;
use lookup::index::Index;
use store_table::Table;

// The lowest index of a store whose name an earlier store has; where there is none, the table is indexed. An Option, as the
// definition's answer is: its caller, `decide::indexed_stores`, makes the index a refusal's place.
pub fn twin_of(table: Table, index: &mut Index) -> Option<usize>
    requires { Blank index.old.slots }
    ensures { (result ≡ twin_of (entries_in table.entry.bytes.now)) × (result ≡ None → IndexedAll table.entry.bytes.now index.new.starts index.new.slots) }
{
    for place in table.entries() {
        let name = place.name;
        let hash = hash_of(name);
        if index.find_by(name, hash, table, place.index).is_some() {
            return Some(place.index);
        }
        index.enter(place.index, place.start, hash);
    }
    None
}
