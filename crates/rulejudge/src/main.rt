// Judges a rule from standard input for the stores that are given as arguments, each `name:mode`: `pass`, or `no NUMBER PLACE`, and
// what that means. Text, arguments and page have a longest length, so arrays hold them: no memory is asked for that may be refused.
#![tactic(auto)]

use console::{ARGS_BYTES, READ_BYTES, collect, fail, read_text, write_out};
use page::PAGE_BYTES;
use std::process::ExitCode;

// It begins as ruleread does, with words of its own: a function for both would answer a size or an exit status, to be matched again.
fn main(rt: HostRuntime) -> ExitCode {
    let mut text = [0u8; READ_BYTES];
    let size = match read_text(&mut rt.stdin(), &mut text) {
        Ok(size) => size,
        Err(why) => return fail(&rt, "rulejudge: standard input", &why),
    };
    let mut args = [0u8; ARGS_BYTES];
    let end = collect(&rt, &mut args);
    let mut page = [0u8; PAGE_BYTES];
    let written = page::report(&text[..size], &args[..end], &mut page);
    write_out(
        &rt,
        &mut rt.stdout(),
        &page[..written],
        "rulejudge: standard output",
    )
}
