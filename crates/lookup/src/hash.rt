// A hash of a name: equal names have equal hashes.
ghost use Rattle.std.specs.Prelude.{◌≡◌, ◌<◌};
ghost use Rattle.store_table.specs.Inner.Index.{key_of, hash_of};

use little_endian::read;

// A number made of a name's first and last bytes.
fn key_of(name: &[u8]) -> u64
    ensures { result ≡ key_of name.now }
{
    let n = name.len();
    if 8 <= n {
        return read::<8>(name, 0) / 2 + read::<8>(name, n - 8) / 2;
    }
    if 4 <= n {
        return read::<4>(name, 0) + 65536 * read::<4>(name, n - 4);
    }
    if 1 <= n {
        return u64::from(name[0]) + 256 * u64::from(name[n / 2]) + 65536 * u64::from(name[n - 1]);
    }
    0
}

// A name's slot in the index: equal names have the same slot. The cast of a number below 512 loses nothing, and there is no `From` of
// `u64` into `usize`.
pub fn hash_of(name: &[u8]) -> usize
    ensures { (result ≡ hash_of name.now) × (result < 512) }
{
    let key = key_of(name);
    let folded = key / 4294967296 + key % 4294967296;
    (folded * 1640531527 / 16777216 % 512) as usize
}
