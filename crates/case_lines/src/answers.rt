// Answers, each printed on a line. A call answers a number, as the C interface has it, and what is printed is what C is answered: a
// refusal's number times 2^32 and its place, or a value below 2^32.
ghost use Rattle.std.specs.Prelude.{◌≤◌, length};

use std::io::{Result, Write};

// The least answer that is a refusal.
pub const REFUSED: u64 = 4_294_967_296;

// How many bytes are written in hex at a time.
const PIECE: usize = 2048;

// A refusal: `no NUMBER PLACE`.
pub fn print_refusal<W: Write>(output: &mut W, answer: u64) -> Result<()> {
    writeln!(output, "no {} {}", answer / REFUSED, answer % REFUSED)
}

// A verdict: a refusal or a pass.
pub fn print_verdict<W: Write>(output: &mut W, answer: u64) -> Result<()> {
    match answer {
        REFUSED.. => print_refusal(output, answer),
        _ => output.write_all(b"pass\n"),
    }
}

// A decision: 1 is evict, 0 is keep.
pub fn print_decision<W: Write>(output: &mut W, answer: u64) -> Result<()> {
    match answer {
        REFUSED.. => print_refusal(output, answer),
        1 => output.write_all(b"evict\n"),
        _ => output.write_all(b"keep\n"),
    }
}

// Writes bytes in hex, no more of them than a piece has.
fn print_digits<W: Write>(output: &mut W, bytes: &[u8]) -> Result<()>
    requires { length bytes.now ≤ 2048 }
{
    let mut text = [0u8; 2 * PIECE];
    let digits = &mut text[..2 * bytes.len()];
    hex::encode_to_slice(bytes, digits).unwrap();
    output.write_all(digits)
}

// The bytes that a call wrote: `ok` and the bytes in hex, or a dash where there are none.
pub fn print_bytes<W: Write>(output: &mut W, bytes: &[u8]) -> Result<()> {
    output.write_all(b"ok ")?;
    if bytes.is_empty() {
        output.write_all(b"-")?;
    }
    for piece in bytes.chunks(PIECE) {
        print_digits(output, piece)?;
    }
    output.write_all(b"\n")
}

// How many cases there are.
pub fn print_count<W: Write>(output: &mut W, cases: u64) -> Result<()> {
    writeln!(output, "{cases} cases")
}
