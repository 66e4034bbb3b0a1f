// Reads a rule from standard input and prints one line: `ok n m`, or `no number place`. A text and a line have a longest length, so
// arrays hold them: no memory is asked for that may be refused.
#![tactic(auto)]

use console::{READ_BYTES, fail, read_text, write_out};
use std::process::ExitCode;

// It begins as rulejudge does, with words of its own: a function for both would answer a size or an exit status, to be matched again.
#[tactic(auto, using(console::proofs::Laws::WithinLaws::put_within, console::proofs::Laws::WithinLaws::put_counts))]
fn main(rt: HostRuntime) -> ExitCode {
    let mut text = [0u8; READ_BYTES];
    let size = match read_text(&mut rt.stdin(), &mut text) {
        Ok(size) => size,
        Err(why) => return fail(&rt, "ruleread: standard input", &why),
    };
    let mut line = [0u8; 64];
    let end = read_line::reading_line(&mut line, &text[..size]);
    write_out(
        &rt,
        &mut rt.stdout(),
        &line[..end],
        "ruleread: standard output",
    )
}
