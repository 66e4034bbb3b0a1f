// Store tables and confirmed lists: whether bytes are one, what each entry is, and whether two names are the same.
#![tactic(auto)]

pub mod entries;

ghost use Rattle.std.specs.Prelude.{◌≡◌, ◌<◌, ◌≤◌, drop, length, true, false, MatchOption};
ghost use Rattle.slices.specs.Text.{AllBytes};
ghost use Rattle.store_table.specs.Names.{same_name};
ghost use Rattle.store_table.specs.Stores.{Entry, is_readable, sum, all_at_most, well_made, is_table, is_list, count_in, entries_in, names_start};
ghost use Rattle.store_table.specs.Inner.Bounds.{TableInBounds};
ghost use Rattle.store_table.specs.Inner.Index.{EntryAt, EntryWalk, NameAt, length_at};

use little_endian::read;
use slices::ascii_from;

// Where the count, the total and the modes of a table or a list begin.
pub const COUNT_START: usize = 0;

pub const TOTAL_START: usize = 2;

pub const MODES_START: usize = 4;

// The modes of a store. They stay numbers, the bytes of a lent table: each is compared once, where it is read, and an enum would be
// made for that alone.
pub const READ_WRITE: u8 = 0;

pub const READ_ONLY: u8 = 1;

pub const WRITE_ONLY: u8 = 2;

// Whether two names of the same length are the same from a position on. With `a[at..] == b[at..]` deciding takes 7 to 31 % longer.
fn same_from(a: &[u8], b: &[u8], at: usize) -> bool
    requires { length a.now ≡ length b.now }
    ensures { result ≡ same_name (drop at a.now) (drop at b.now) }
{
    for i in at..a.len() {
        if a[i] != b[i] {
            return false;
        }
    }
    true
}

// Whether two names are the same: eight bytes at a time, then byte by byte. With `a == b` deciding for 64 stores takes up to half as long
// again.
pub fn same_name(a: &[u8], b: &[u8]) -> bool
    ensures { result ≡ same_name a.now b.now }
{
    if a.len() != b.len() {
        return false;
    }
    let words = a.len() / 8;
    for k in 0..words {
        if read::<8>(a, 8 * k) != read::<8>(b, 8 * k) {
            return false;
        }
    }
    same_from(a, b, 8 * words)
}

// Whether a store of this mode is read in normal running.
pub fn is_readable(mode: u8) -> bool
    ensures { result ≡ is_readable mode }
{
    mode <= READ_ONLY
}

// Where the names of a table or a list of this many entries begin.
pub fn names_start(count: usize) -> usize
    requires { count ≤ 64 }
    ensures { result ≡ names_start count }
{
    MODES_START + 2 * count
}

// The sum of at most 64 bytes.
fn sum_of(bytes: &[u8]) -> usize
    requires { length bytes.now ≤ 64 }
    ensures { result ≡ sum bytes.now }
{
    bytes.iter().map(|x| usize::from(*x)).sum()
}

// Whether bytes are at most `most`.
fn all_at_most(bytes: &[u8], most: u8) -> bool
    ensures { result ≡ all_at_most most bytes.now }
{
    bytes.iter().all(|x| *x <= most)
}

// Whether the bytes are a well-made table or list, with modes of at most `most`. The casts of numbers of two bytes, here and in `count`,
// lose nothing, and there is no `From` of `u64` into `usize`.
#[tactic(auto, using(crate::proofs::Laws::StoresLaws::unmade_many, crate::proofs::Laws::StoresLaws::unmade_sum))]
fn well_made(s: &[u8], most: u8) -> bool
    ensures { result ≡ well_made most s.now }
{
    if s.len() < MODES_START {
        return false;
    }
    let count = read::<2>(s, COUNT_START) as usize;
    let total = read::<2>(s, TOTAL_START) as usize;
    if 64 < count {
        return false;
    }
    let lengths = MODES_START + count;
    let names = lengths + count;
    if s.len() != names + total {
        return false;
    }
    if sum_of(&s[lengths..names]) != total {
        return false;
    }
    if !all_at_most(&s[MODES_START..lengths], most) {
        return false;
    }
    ascii_from(s, names)
}

// The bytes of a well-made table or list.
#[derive(Clone, Copy)]
pub struct Table<'a> {
    pub bytes: &'a [u8],
    pub ghost in_bounds: { TableInBounds bytes.now },
    pub ghost are_bytes: { AllBytes bytes.now },
}

impl<'a> Table<'a> {
    // The table that the bytes are, where they are a well-made one with modes of at most `most`.
    fn of(bytes: &'a [u8], most: u8) -> Option<Table<'a>>
        ensures { MatchOption result (well_made most bytes.now ≡ false) (λ t. (well_made most bytes.now ≡ true) × (t.bytes.now ≡ bytes.now)) }
    {
        if well_made(bytes, most) {
            Some(Table { bytes })
        } else {
            None
        }
    }

    // The table that the bytes are, where they are a well-made store table.
    pub fn of_stores(bytes: &'a [u8]) -> Option<Table<'a>>
        ensures { MatchOption result (is_table bytes.now ≡ false) (λ t. (is_table bytes.now ≡ true) × (t.bytes.now ≡ bytes.now)) }
    {
        Table::of(bytes, WRITE_ONLY)
    }

    // The list that the bytes are, where they are a well-made confirmed list.
    pub fn of_list(bytes: &'a [u8]) -> Option<Table<'a>>
        ensures { MatchOption result (is_list bytes.now ≡ false) (λ t. (is_list bytes.now ≡ true) × (t.bytes.now ≡ bytes.now)) }
    {
        Table::of(bytes, READ_WRITE)
    }

    // How many entries there are.
    pub fn count(self) -> usize
        ensures { (result ≡ count_in self.entry.bytes.now) × (result ≤ 64) }
    {
        read::<2>(self.bytes, COUNT_START) as usize
    }

    // The mode of entry k. Here and below k is a number with a bound: a type for it would have to hold the table too.
    pub fn mode(self, k: usize) -> u8
        requires { k < count_in self.bytes.now }
        ensures { (x : Entry) → EntryAt (entries_in self.entry.bytes.now) k x → result ≡ x.mode }
    {
        self.bytes[MODES_START + k]
    }

    // The length of the name of entry k.
    pub fn name_length(self, k: usize) -> usize
        requires { k < count_in self.bytes.now }
        ensures { (result ≡ length_at self.entry.bytes.now k) × (result < 256) }
    {
        let count = self.count();
        usize::from(self.bytes[MODES_START + count + k])
    }

    // Where the names begin.
    pub fn names_start(self) -> usize
        ensures { (result ≡ names_start (count_in self.entry.bytes.now)) × (result ≤ 132) }
    {
        names_start(self.count())
    }

    // The name of entry k, which begins at `start`.
    pub fn name(self, k: usize, start: usize) -> &'a [u8]
        requires { (k < count_in self.bytes.now) × EntryWalk self.bytes.now (count_in self.bytes.now) k start }
        ensures { NameAt self.entry.bytes.now k start result.now }
    {
        let end = start + self.name_length(k);
        &self.bytes[start..end]
    }
}
