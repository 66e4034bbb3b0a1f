// The lines of an input, read by way of a chunk, which is filled whenever it is used up.
ghost use Rattle.std.specs.Prelude.{◌≡◌, ◌≤◌, ◌<◌, ◌≢◌, IfOk, length, slice_index};

use std::cmp::min;
use std::io::{Read, Result};

// Where the reading is: the next byte of the chunk, or 0 where the chunk is used up; how many bytes the chunk has; and how many the
// line has that was read.
#[derive(Clone, Copy)]
pub struct Place {
    pub next: usize,
    pub filled: usize,
    pub size: usize,
}

// Before the first line.
pub fn start() -> Place
    ensures next { result.next ≡ 0 }
    ensures filled { result.filled ≡ 0 }
    ensures size { result.size ≡ 0 }
{
    Place {
        next: 0,
        filled: 0,
        size: 0,
    }
}

// The size of a line as a case: 0 where it begins with `#`.
fn case_size(line: &[u8], size: usize) -> usize
    ensures within { size ≤ length line.now → result ≤ length line.now }
    ensures case { 0 < result → slice_index line.now 0 ≢ 35 }
{
    if line.starts_with(b"#") { 0 } else { size }
}

// Makes a line longer by bytes, as far as there is room, and answers its size.
fn append(line: &mut [u8], size: usize, bytes: &[u8]) -> usize
    ensures { size ≤ length line.old → result ≤ length line.new }
{
    let Some(room) = line.get_mut(size..) else {
        return size;
    };
    let taken = min(bytes.len(), room.len());
    room[..taken].copy_from_slice(&bytes[..taken]);
    size + taken
}

// What is left of a chunk.
fn left_of(chunk: &[u8], next: usize, filled: usize) -> &[u8] {
    chunk.get(next..min(filled, chunk.len())).unwrap_or(&[])
}

// The bytes before a line end, or all where there is none.
fn before_line_end(bytes: &[u8]) -> &[u8] {
    match bytes.iter().position(|b| *b == b'\n') {
        Some(end) => &bytes[..end],
        None => bytes,
    }
}

// The index after another in a chunk, or 0 where the chunk is used up.
fn index_after(i: usize, filled: usize) -> usize {
    let after = i.wrapping_add(1);
    if after < filled { after } else { 0 }
}

// Fills a chunk anew where it is used up, with no bytes at the input's end, and answers how many bytes it has.
fn refill<R: Read>(input: &mut R, chunk: &mut [u8], next: usize, filled: usize) -> Result<usize> {
    if next > 0 {
        return Ok(filled);
    }
    input.read(chunk)
}

// Reads on to the next case: lines that are empty or begin with `#` are passed over, and the last one may lack its line end. Of a line
// that is longer than there is room for, what has room is kept. At the end of the input its size is 0. Nothing says that an input ends,
// so the reading of chunks and of lines is counted up to a number that no run comes to.
pub fn next_case<R: Read>(
    input: &mut R,
    line: &mut [u8],
    chunk: &mut [u8],
    from: Place,
) -> Result<Place>
    ensures within { IfOk result (λ place. place.size ≤ length line.new) }
    ensures case { IfOk result (λ place. 0 < place.size → slice_index line.new 0 ≢ 35) }
{
    let mut next = from.next;
    let mut filled = from.filled;
    let mut size = 0;
    for _ in 0..u64::MAX {
        filled = refill(input, chunk, next, filled)?;
        let left = left_of(chunk, next, filled);
        let part = before_line_end(left);
        next = index_after(next.wrapping_add(part.len()), filled);
        size = append(line, size, part);
        if part.len() < left.len() || left.is_empty() {
            size = case_size(line, size);
            if size > 0 || filled == 0 {
                return Ok(Place { next, filled, size });
            }
        }
    }
    Ok(Place {
        next,
        filled,
        size: 0,
    })
}
