// Standard input, the arguments and standard output of the programs.
#![tactic(auto)]

ghost use Rattle.std.specs.Prelude.{◌≡◌, ◌≤◌, ◌<◌, ◌+◌, length, take, IfOk, IfSome};
ghost use Rattle.std.specs.Io.KnownBytes.{Appends, Consumes, IsAtEnd};
ghost use Rattle.std.specs.Process.{exit_status};

use std::env::FillError;
use std::io;
use std::io::{Read, Write};
use std::process::ExitCode;
use std::rt::Env;

// One byte more than a text may have, which is enough to detect a long one.
pub const READ_BYTES: usize = 2049;

// One byte more than an argument that gives a store may have, which is enough to detect a long one.
const ARG_BYTES: usize = 267;

// Enough arguments to detect too many.
const ARGS: usize = 65;

// All of them, each with a 0 after it.
pub const ARGS_BYTES: usize = ARGS * (ARG_BYTES + 1);

// Reads until the text is full or the input ends, and answers how many bytes were read. A loop over `read`, since read_exact calls
// an input that is shorter than the text an error, and read_to_end reads into a Vec.
pub fn read_text<R: Read>(input: &mut R, text: &mut [u8]) -> io::Result<usize>
    ensures fits { IfOk result (λ size. size ≤ length text.new) }
    ensures read { IfOk result (λ size. Consumes (R.remaining input.old) (R.remaining input.new) (take size text.new)) }
    ensures end { IfOk result (λ size. size < length text.new → IsAtEnd (R.remaining input.new)) }
{
    let mut done = 0;
    while done < text.len() {
        let more = input.read(&mut text[done..])?;
        if more == 0 {
            return Ok(done);
        }
        done += more;
    }
    Ok(done)
}

// Writes argument i, or the first bytes of one that is too long, and a 0 after it, and answers where that ends; nothing where there is
// no such argument.
fn collect_one(env: &impl Env, args: &mut [u8], at: usize, i: usize) -> Option<usize>
    requires { at + 268 ≤ length args.old }
    ensures { IfSome result (λ end. end ≤ at + 268) }
{
    let end = match env.arg(i, &mut args[at..at + ARG_BYTES]) {
        Ok(size) => at + size,
        Err(FillError::TooLong) => at + ARG_BYTES,
        Err(FillError::NotPresent) => return None,
    };
    args[end] = 0;
    Some(end + 1)
}

// Writes the program's arguments one after another, each with a 0 after it, and answers where the last ends. One buffer, as
// `page::report` takes them: without a heap there is no list of texts.
pub fn collect(env: &impl Env, args: &mut [u8]) -> usize
    requires { 17_420 ≤ length args.old }
    ensures { result ≤ 17_420 }
{
    let mut at = 0;
    for i in 1..ARGS + 1 {
        let Some(end) = collect_one(env, args, at, i) else {
            return at;
        };
        at = end;
    }
    at
}

// Says on standard error what failed and why, and answers the exit status of a program that failed.
pub fn fail(rt: &impl Eprint, what: &str, why: &io::Error) -> ExitCode
    ensures { exit_status result ≡ 1 }
{
    let _ = eprintln!(rt; "{what}: {why}");
    ExitCode::FAILURE
}

// Writes all of an answer; where that fails, a line on standard error says so, and the exit status is that of a program that failed.
pub fn write_out<W: Write>(rt: &impl Eprint, output: &mut W, answer: &[u8], what: &str) -> ExitCode
    ensures { exit_status result ≡ 0 → Appends (W.contents output.old) (W.contents output.new) answer.now }
{
    match output.write_all(answer) {
        Ok(()) => ExitCode::SUCCESS,
        Err(why) => fail(rt, what, &why),
    }
}
