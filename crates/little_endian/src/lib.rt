// Numbers in bytes, the lowest first, read and written.
// Bytes and a position stay two parameters: a struct that holds a lent slice would add a clause to each function and take none away.
#![tactic(auto)]

ghost use Rattle.std.specs.Prelude.{◌≡◌, ◌<◌, ◌+◌, ◌^◌, ◌≤◌, length};
ghost use Rattle.slices.specs.Text.{written};
ghost use Rattle.little_endian.specs.Bytes.{le_at, le_bytes};

// The number that the K bytes from a position make. From the lowest on, since a compiler then sees one load; from_le_bytes has a fixed
// width, so K bytes would first be copied into an array. By index, since the promise speaks of places in `s`, not of a slice of it.
pub fn read<const K: usize>(s: &[u8], at: usize) -> u64
    requires { (K ≤ 8) × (at + K ≤ length s.now) }
    ensures { (result ≡ le_at s.now at K) × (result < 256 ^ K) }
{
    let mut x: u64 = 0;
    let mut worth: u64 = 1;
    for i in 0..K {
        x += worth * u64::from(s[at + i]);
        worth = worth.wrapping_mul(256);
    }
    x
}

// Writes a number in K bytes, however many: to_le_bytes has eight, so it would ask that K is no more. By index, as `read` goes. The cast
// is of what is below 256, so it is lossless: TryFrom would have a case that never comes.
pub fn write<const K: usize>(s: &mut [u8], at: usize, x: u64)
    requires { at + K ≤ length s.old }
    ensures { s.new ≡ written s.old at (le_bytes K x) }
{
    let mut left = x;
    for i in 0..K {
        s[at + i] = (left % 256) as u8;
        left /= 256;
    }
}
