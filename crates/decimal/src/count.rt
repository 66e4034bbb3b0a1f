// Counts.
ghost use Rattle.std.specs.Prelude.{◌≡◌};
ghost use Rattle.decimal.specs.Count.{sign_end, count_of};

use crate::digit_of;
use ascii::is_digit;

// Where the digits of a count begin: after a `+`, if there is one.
fn sign_end(word: &[u8]) -> usize
    ensures { result ≡ sign_end word.now }
{
    if word.starts_with(b"+") { 1 } else { 0 }
}

// A count: an optional `+`, then one or more digits, at most 2^64 - 1. By hand, since the library's from_str_radix takes a &str, and
// these are bytes, which would first be tested for UTF-8.
pub fn parse_count(word: &[u8]) -> Option<u64>
    ensures { result ≡ count_of word.now }
{
    let start = sign_end(word);
    if word.len() <= start {
        return None;
    }
    let mut value: u64 = 0;
    for b in &word[start..] {
        if !is_digit(*b) {
            return None;
        }
        value = value.checked_mul(10)?.checked_add(digit_of(*b))?;
    }
    Some(value)
}
