// An index of a table's names: where each begins, and for each hash one of the entries whose name has it.
ghost use Rattle.std.specs.Prelude.{◌≡◌, ◌≤◌, ◌<◌, ◌+◌, length, set};
ghost use Rattle.store_table.specs.Stores.{count_in, entries_in};
ghost use Rattle.store_table.specs.Inner.Index.{Blank, Finds, Indexed, hash_of};

use crate::position;
use store_table::{Table, same_name};

// Where the name of each entry begins; and for each hash an entry's index plus 1, or 0. Arrays, since the project has no heap; a slot
// is a byte: `Option<u8>` has two, and `Option<NonZeroU8>` would hold the index plus 1 all the same.
#[derive(Drop)]
pub struct Index {
    pub starts: [u16; 64],
    pub slots: [u8; 512],
}

impl Index {
    // With no entry.
    pub fn new() -> Index
        ensures { Blank result.slots }
    {
        Index {
            starts: [0; 64],
            slots: [0; 512],
        }
    }

    // Adds entry k, whose name begins at `start` and has this hash. Plain numbers, since a type for one would be made for this call
    // alone; with their bounds the casts lose nothing, and `try_from` would answer an error that cannot be.
    pub fn enter(&mut self, k: usize, start: usize, hash: usize)
        requires { ((k < 64) × (hash < 512)) × (start < 65536) }
        ensures written { (self.new.starts ≡ set self.old.starts k start) × (self.new.slots ≡ set self.old.slots hash (k + 1)) }
        ensures sizes { (length self.old.starts ≡ 64) × (length self.old.slots ≡ 512) }
    {
        self.starts[k] = start as u16;
        self.slots[hash] = (k + 1) as u8;
    }

    // An entry that has this name among the first `first`, which are indexed. The hash is passed with what is known of it, since
    // `twin_of` takes it once for this look and for `enter`.
    #[tactic(auto, using(store_table::proofs::Laws::IndexLaws::finds_none, store_table::proofs::Laws::IndexLaws::slot_empty))]
    pub fn find_by(&self, name: &[u8], hash: usize, table: Table, first: usize) -> Option<usize>
        requires { (hash ≡ hash_of name.now) × ((hash < 512) × ((first ≤ count_in table.bytes.now) × Indexed table.bytes.now first self.now.starts self.now.slots)) }
        ensures { Finds name.now (entries_in table.entry.bytes.now) first result }
    {
        let slot = usize::from(self.slots[hash]);
        if slot == 0 {
            return None;
        }
        let k = slot - 1;
        if same_name(name, table.name(k, usize::from(self.starts[k]))) {
            return Some(k);
        }
        position(name, table, first)
    }
}
