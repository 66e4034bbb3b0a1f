// Which stores of a table a list confirms, and how many of them are readable.
#![tactic(auto)]

ghost use Rattle.std.specs.Prelude.{◌≡◌, List, ℕ, None};
ghost use Rattle.store_table.specs.Stores.{entries_in, all_names, twin_of, ready_count};
ghost use Rattle.store_table.specs.Inner.Index.{Unmarked, Marked};
ghost use Rattle.store_table.specs.Names.{has};

use lookup::{IndexedTable, position};
use store_table::{Table, is_readable};

// Marks each store that a list names, in an array, since the project has no heap. That no two stores share a name is asked here and
// is no ghost field of `IndexedTable`, since `find` has never asked it.
pub fn mark_confirmed(stores: IndexedTable, list: Table, marks: &mut [bool; 64])
    requires { (twin_of (entries_in stores.table.bytes.now) ≡ None) × Unmarked marks.old }
    ensures { Marked (entries_in stores.entry.table.bytes.now) (all_names (entries_in list.entry.bytes.now)) marks.new }
{
    for place in list.entries() {
        if let Some(i) = stores.find(place.name) {
            marks[i] = true;
        }
    }
}

// How many readable stores are marked.
pub fn ready_count(stores: Table, marks: &[bool; 64]) -> u64
    ensures { (names : List (List ℕ)) → Marked (entries_in stores.entry.bytes.now) names marks.now → result ≡ ready_count (entries_in stores.entry.bytes.now) names }
{
    let mut ready: u64 = 0;
    for k in 0..stores.count() {
        let marked = marks[k];
        if is_readable(stores.mode(k)) && marked {
            ready += 1;
        }
    }
    ready
}

// Stores, a list, and a mark on each store that the list names.
#[derive(Clone, Copy)]
pub struct Confirmed<'a> {
    pub stores: IndexedTable<'a>,
    pub list: Table<'a>,
    pub marks: &'a [bool; 64],
    pub ghost marked: { Marked (entries_in stores.table.bytes.now) (all_names (entries_in list.bytes.now)) marks.now },
}

impl<'a> Confirmed<'a> {
    // Whether the list has a name: by the marks where a store has it, else by a look at each entry.
    pub fn is_confirmed(self, name: &[u8]) -> bool
        ensures { result ≡ has name.now (all_names (entries_in self.entry.list.bytes.now)) }
    {
        match self.stores.find(name) {
            Some(k) => self.marks[k],
            None => position(name, self.list, self.list.count()).is_some(),
        }
    }
}
