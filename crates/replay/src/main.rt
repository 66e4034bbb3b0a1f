// Runs a list of cases from standard input, one on a line, and prints the answer of each on a line, and how many there are. Lines
// that are empty or begin with `#` are passed over. What a case is: case_lines/src/case.rt.
#![tactic(auto)]

mod run;

use case_lines::answers::print_count;
use case_lines::case::case_in;
use case_lines::fields::SPACE;
use case_lines::input::{next_case, start};
use run::run;
use std::io::{BufWriter, Read, Result, Write};

// Runs the case that a line gives. Where it gives none, it is not in the format, as `case_in` promises.
fn run_line<W: Write>(output: &mut W, line: &[u8], space: &mut [u8]) -> Result<()> {
    match case_in(line, space) {
        Ok(case) => run(output, &case),
        Err(_) => output.write_all(b"not in the format\n"),
    }
}

// Runs the cases of the input one after the other, and answers how many there are. Each is read to a line, by way of a chunk, and what
// its fields give is written to a space.
fn run_all<R: Read, W: Write>(
    input: &mut R,
    output: &mut W,
    line: &mut [u8],
    chunk: &mut [u8],
    space: &mut [u8],
) -> Result<u64> {
    let mut now = start();
    for cases in 0..u64::MAX {
        now = next_case(input, line, chunk, now)?;
        if now.size == 0 {
            return Ok(cases);
        }
        run_line(output, &line[..now.size], space)?;
    }
    Ok(u64::MAX)
}

// Runs the list, and prints how many cases it has.
fn main(rt: HostRuntime) -> Result<()> {
    let mut output = BufWriter::new(rt.alloc(), rt.stdout())?;
    let mut line = [0u8; SPACE];
    let mut chunk = [0u8; SPACE];
    let mut space = [0u8; SPACE];
    let cases = run_all(
        &mut rt.stdin(),
        &mut output,
        &mut line,
        &mut chunk,
        &mut space,
    )?;
    print_count(&mut output, cases)?;
    output.flush()
}
