// A name looked up in a table: by the table's index, or by a look at each entry.
#![tactic(auto)]

pub mod hash;
pub mod index;

ghost use Rattle.std.specs.Prelude.{◌≤◌};
ghost use Rattle.store_table.specs.Stores.{count_in, entries_in};
ghost use Rattle.store_table.specs.Inner.Index.{Finds, IndexedAll};

use crate::hash::hash_of;
use crate::index::Index;
use store_table::{Table, same_name};

// The first entry that has this name among the first `first`, by a look at each. By index: `table.entries().take(first)` counts twice,
// and deciding for names of no store took a fifth longer.
pub fn position(name: &[u8], table: Table, first: usize) -> Option<usize>
    requires { first ≤ count_in table.bytes.now }
    ensures { Finds name.now (entries_in table.entry.bytes.now) first result }
{
    let mut start = table.names_start();
    for k in 0..first {
        let found = table.name(k, start);
        if same_name(name, found) {
            return Some(k);
        }
        start += found.len();
    }
    None
}

// A table whose entries are all indexed.
#[derive(Clone, Copy)]
pub struct IndexedTable<'a> {
    pub table: Table<'a>,
    pub index: &'a Index,
    pub ghost indexed: { IndexedAll table.bytes.now index.now.starts index.now.slots },
}

impl<'a> IndexedTable<'a> {
    // An entry that has this name.
    pub fn find(self, name: &[u8]) -> Option<usize>
        ensures { Finds name.now (entries_in self.entry.table.bytes.now) (count_in self.entry.table.bytes.now) result }
    {
        self.index
            .find_by(name, hash_of(name), self.table, self.table.count())
    }
}
