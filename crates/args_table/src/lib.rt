// The table of the stores that arguments give.
#![tactic(auto)]

ghost use Rattle.std.specs.Prelude.{◌≤◌, ◌≡◌, List, [], ◌∷◌, ◌++◌, MatchResult, length};
ghost use Rattle.store_table.specs.Stores.{Entry};
ghost use Rattle.store_args.specs.Arguments.{arguments_in, stores_in};
ghost use Rattle.store_args.specs.Inner.Filling.{entry, TableAt};
ghost use Rattle.args_table.specs.Inner.Stores.{Hold, Room, Written};

use little_endian::write;
use slices::append;
use store_args::{Arguments, Store, WrongArgument, given_by};
use store_table::{COUNT_START, MODES_START, TOTAL_START};

// Stores in the order of their arguments: how many, the mode of each, the length of each name, and the names, one after the other, up to
// the end of the last. Arrays of a fixed size, the parts of a table: the library has no heap.
#[derive(Drop)]
struct Stores {
    count: usize,
    modes: [u8; 64],
    lengths: [u8; 64],
    end: usize,
    names: [u8; 16_320],
}

impl Stores {
    // No stores.
    fn new() -> Stores
        ensures { Hold [] result }
    {
        Stores {
            count: 0,
            modes: [0; 64],
            lengths: [0; 64],
            end: 0,
            names: [0; 16_320],
        }
    }

    // Adds a store after those that are there. A cast, which is proved to lose nothing: `try_from` would answer an error that cannot be.
    fn push(&mut self, store: Store<'_>)
        requires { Room self.old (length store.name.now) }
        ensures { (es : List Entry) → Hold es self.old → Hold (es ++ (entry store.entry ∷ [])) self.new }
    {
        self.modes[self.count] = store.mode;
        self.lengths[self.count] = store.name.len() as u8;
        self.end = append(&mut self.names, self.end, store.name);
        self.count += 1;
    }

    // Writes the table of the stores, and answers where it ends. There is no `From` of `usize` into `u64`; the casts lose nothing.
    fn write(&self, table: &mut [u8]) -> usize
        requires { (self.now.count ≤ 64) × ((self.now.end ≤ 16_320) × (16_452 ≤ length table.old)) }
        ensures { Written self.now table.new result }
    {
        write::<2>(table, COUNT_START, self.count as u64);
        write::<2>(table, TOTAL_START, self.end as u64);
        let modes_end = append(table, MODES_START, &self.modes[..self.count]);
        let lengths_end = append(table, modes_end, &self.lengths[..self.count]);
        append(table, lengths_end, &self.names[..self.end])
    }
}

// Adds the stores that at most 64 arguments give, where there are none yet. They are lent, since an answer would be copied: some 16 KB.
fn stores_of(args: &[u8], stores: &mut Stores) -> Result<(), WrongArgument>
    requires { (length (arguments_in args.now) ≤ 64) × Hold [] stores.old }
    ensures { MatchResult result (λ _. (es : List Entry) × ((stores_in args.now ≡ Ok es) × Hold es stores.new)) (λ w. stores_in args.now ≡ Err w) }
{
    for arg in Arguments(args) {
        // A match, since the proof does not close over `map_err` and `?` here: what the closure answers stays hidden at the `?`.
        let store = match given_by(arg) {
            Ok(store) => store,
            Err(fault) => {
                return Err(WrongArgument {
                    index: stores.count + 1,
                    fault,
                });
            }
        };
        stores.push(store);
    }
    Ok(())
}

// Makes the table of the stores that the arguments give, at most 64 of them.
pub fn table_of(args: &[u8], table: &mut [u8]) -> Result<usize, WrongArgument>
    requires { (length (arguments_in args.now) ≤ 64) × (16_452 ≤ length table.old) }
    ensures { MatchResult result (λ n. TableAt (stores_in args.now) table.new n) (λ w. stores_in args.now ≡ Err w) }
{
    let mut stores = Stores::new();
    stores_of(args, &mut stores)?;
    Ok(stores.write(table))
}
