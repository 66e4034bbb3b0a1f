// The entries of a table or a list, one after the other.
ghost use Rattle.std.specs.Prelude.{◌≡◌, ◌-◌, ◌≤◌, MatchOption};
ghost use Rattle.std.specs.Iterator.{at_most};
ghost use Rattle.store_table.specs.Stores.{count_in};
ghost use Rattle.store_table.specs.Inner.Index.{Next, name_start_at};

use crate::Table;

// An entry: its index, where its name begins, and its name.
#[derive(Clone, Copy)]
pub struct Place<'a> {
    pub index: usize,
    pub start: usize,
    pub name: &'a [u8],
}

// The entries that are left, from the one at an index on.
#[derive(Clone, Copy)]
pub struct Entries<'a> {
    pub table: Table<'a>,
    pub index: usize,
    pub start: usize,
    pub ghost within: { index ≤ count_in table.bytes.now },
    pub ghost begins: { start ≡ name_start_at table.bytes.now index },
}

impl<'a> Iterator for Entries<'a> {
    type Item = Place<'a>;

    ghost next_gives = { λ s r t. (t.table.bytes.now ≡ s.table.bytes.now) × MatchOption r ((s.index ≡ count_in s.table.bytes.now) × (t.index ≡ s.index)) (λ p. Next s.table.bytes.now s.index p.index p.start p.name.now t.index) };

    ghost remaining = { λ s. at_most (count_in s.table.bytes.now - s.index) };

    fn next(&mut self) -> Option<Place<'a>> {
        if self.index == self.table.count() {
            return None;
        }
        let index = self.index;
        let start = self.start;
        let name = self.table.name(index, start);
        self.index = index + 1;
        self.start = start + name.len();
        Some(Place { index, start, name })
    }
}

impl<'a> Table<'a> {
    // All entries.
    #[tactic(auto, using(crate::proofs::Laws::WalkLaws::name_start_first))]
    pub fn entries(self) -> Entries<'a>
        ensures { (result.table.bytes.now ≡ self.entry.bytes.now) × (result.index ≡ 0) }
    {
        Entries {
            table: self,
            index: 0,
            start: self.names_start(),
        }
    }
}
