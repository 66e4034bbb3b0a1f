// The memory that a call is lent, and its answer there.
ghost use Rattle.std.specs.Prelude.{◌≡◌, length};

use crate::answers::{REFUSED, print_bytes, print_refusal};
use crate::fields::ROOM;
use std::cmp::min;
use std::io::{Result, Write};

// What every byte of the memory is before a call. No text has such a byte, and few images.
const FILL: u8 = 165;

// How many bytes after the lent buffer are looked at too.
pub const AFTER: usize = 1000;

const MEMORY: usize = ROOM + AFTER;

// A memory before a call, with room for the longest buffer and for what is after it. An array, since this cannot fail: a Vec asks for
// memory, which may be refused.
pub fn filled() -> [u8; MEMORY]
    ensures { 132_072 ≡ length result }
{
    [FILL; MEMORY]
}

// Says so before the answer where the memory is changed after the bytes written.
fn print_change<W: Write>(output: &mut W, memory: &[u8], written: usize) -> Result<()> {
    match memory
        .iter()
        .enumerate()
        .skip(written)
        .find(|(_, b)| **b != FILL)
    {
        Some((place, _)) => write!(output, "memory changed at {place}: "),
        None => Ok(()),
    }
}

// The answer of a call in a memory: the bytes that it wrote to its front, or a refusal. Their number is below 2^32, so its cast is
// lossless: TryFrom would have a case that never comes.
pub fn print_lent<W: Write>(output: &mut W, answer: u64, memory: &[u8]) -> Result<()> {
    if answer < REFUSED {
        let written = min(answer as usize, memory.len());
        print_change(output, memory, written)?;
        return print_bytes(output, &memory[..written]);
    }
    print_change(output, memory, 0)?;
    print_refusal(output, answer)
}
