// Slices of bytes: what is looked for in one, and pieces written into one. A text and a position stay two parameters: a struct with
// the position within the text would ask that of largest_from, run_end and mark_at too, which take any.
#![tactic(auto)]

ghost use Rattle.std.specs.Prelude.{◌≡◌, ◌<◌, ◌≤◌, ◌+◌, ℕ, Bool, drop, length};
ghost use Rattle.ascii.specs.Letters.{within};
ghost use Rattle.slices.specs.Inner.Search.{largest};
ghost use Rattle.slices.specs.Text.{run_end, other, all_ascii, end_of_last, WrittenAt};

// The largest byte from a position on, or 0.
pub fn largest_from(s: &[u8], at: usize) -> u8
    ensures { result ≡ largest (drop at s.now) }
{
    let mut most: u8 = 0;
    for b in &s[at.min(s.len())..] {
        most = most.max(*b);
    }
    most
}

// The position after the last of the first `at` bytes that is from lo up to hi; 0 where there is none, which is never an
// end, as its definition has it. By index: `rposition` would answer an Option of the byte's index, to be made the one after it, or 0.
pub fn end_of_last(s: &[u8], at: usize, lo: u8, hi: u8) -> usize
    requires { at ≤ length s.now }
    ensures { result ≡ end_of_last (within lo hi) s.now at }
{
    for i in (0..at).rev() {
        let b = s[i];
        if lo <= b {
            if b <= hi {
                return i + 1;
            }
        }
    }
    0
}

// Writes a piece so that it ends at a position, and answers where it begins. A loop, since most pieces have few bytes: with
// copy_from_slice printing takes a third longer.
pub fn prepend(text: &mut [u8], end: usize, piece: &[u8]) -> usize
    requires { (length piece.now ≤ end) × (end ≤ length text.old) }
    ensures { WrittenAt text.old text.new result end piece.now }
{
    let start = end - piece.len();
    for (i, byte) in piece.iter().enumerate() {
        text[start + i] = *byte;
    }
    start
}

// Writes a piece from a position on, and answers where it ends.
#[tactic(auto, using(crate::proofs::Laws::WrittenLaws::written_at_from))]
pub fn append(text: &mut [u8], at: usize, piece: &[u8]) -> usize
    requires { at + length piece.now ≤ length text.old }
    ensures { WrittenAt text.old text.new at result piece.now }
{
    let end = at + piece.len();
    prepend(text, end, piece);
    end
}

// Where the run of bytes that pass a test ends, which begins at a position. By index: `position` over what is left would answer an
// Option of an index from there, to be added to the position, or made the length.
pub fn run_end<F: Fn(u8) -> bool>(text: &[u8], at: usize, passes: F) -> usize
    requires { F.IsAlwaysCallable passes }
    ensures { (p : ℕ → Bool) → ((b : ℕ) (r : Bool) → b < 256 → F.post passes b r → r ≡ p b) → result ≡ run_end p text.now at }
{
    if text.len() <= at {
        return at;
    }
    for i in at..text.len() {
        if !passes(text[i]) {
            return i;
        }
    }
    text.len()
}

// Where the next mark of this sort is, from a position on, or the text's length: a public promise, in the words of the definitions,
// which take the end of a run.
pub fn mark_at(text: &[u8], at: usize, mark: u8) -> usize
    ensures { result ≡ run_end (other mark) text.now at }
{
    run_end(text, at, |b| b != mark)
}

// Whether all bytes from a position on are below 128. By the largest: with the library's `is_ascii` an image without names takes some 60
// instructions more to test, and printing 30 bytes misses its bar.
#[tactic(auto, using(crate::proofs::Laws::AsciiLaws::ascii_largest))]
pub fn ascii_from(s: &[u8], at: usize) -> bool
    requires { at ≤ length s.now }
    ensures { result ≡ all_ascii (drop at s.now) }
{
    largest_from(s, at) < 128
}
