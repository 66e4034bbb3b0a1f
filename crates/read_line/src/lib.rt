// The line that `ruleread` prints, in a lent text from a position on, as in `lines`. The casts of numbers of bytes lose nothing, and
// there is no `From` of `usize` into `u64`; an image is an array of the size that fits any, since the library has no heap.
#![tactic(auto)]

ghost use Rattle.std.specs.Prelude.{◌+◌, ◌≤◌, length};
ghost use Rattle.slices.specs.Text.{WrittenAt};
ghost use Rattle.grammar.specs.Reading.{read_of};
ghost use Rattle.read_line.specs.Reading.{refusal_line, read_line};

use image::{name_byte_count, node_count};
use lines::append_numbers;
use read::IMAGE_BYTES;
use refusals::Refusal;

// A refusal's number and place.
pub fn append_refusal(line: &mut [u8], at: usize, f: Refusal) -> usize
    requires { at + 45 ≤ length line.old }
    ensures { WrittenAt line.old line.new at result (refusal_line f) }
{
    let number = u64::from(f.cause.number());
    append_numbers(line, at, b"no ", number, f.place as u64)
}

// What a text reads as: the numbers of nodes and of name bytes, or the refusal.
pub fn reading_line(line: &mut [u8], text: &[u8]) -> usize
    requires { 45 ≤ length line.old }
    ensures { WrittenAt line.old line.new 0 result (read_line (read_of text.now)) }
{
    let mut image = [0u8; IMAGE_BYTES];
    match read::read(text, &mut image) {
        Ok(_) => {
            let nodes = node_count(&image) as u64;
            let bytes = name_byte_count(&image) as u64;
            append_numbers(line, 0, b"ok ", nodes, bytes)
        }
        Err(f) => append_refusal(line, 0, f),
    }
}
