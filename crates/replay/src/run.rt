// A case run, and its answer printed.
use case_lines::answers::{print_bytes, print_decision, print_verdict};
use case_lines::case::LentCase;
use case_lines::fields::ROOM;
use case_lines::memory::{AFTER, filled, print_lent};
use page::PAGE_BYTES;
use std::cmp::min;
use std::io::{Result, Write};

// Runs a call in a memory that has the lent buffer, of the longest length at most, and some bytes after it.
fn lend<W: Write, F: FnOnce(&mut [u8]) -> u64>(output: &mut W, room: usize, call: F) -> Result<()>
    requires { F.IsAlwaysCallable call }
{
    let room = min(room, ROOM);
    let mut memory = filled();
    let lent = &mut memory[..room + AFTER];
    let answer = call(&mut lent[..room]);
    print_lent(output, answer, lent)
}

// The page that `rulejudge` prints of a text and of arguments, in an array as `rulejudge` lends it.
fn report<W: Write>(output: &mut W, text: &[u8], args: &[u8]) -> Result<()> {
    let mut lines = [0u8; PAGE_BYTES];
    let size = page::report(text, args, &mut lines);
    print_bytes(output, &lines[..min(size, PAGE_BYTES)])
}

// Runs a case.
pub fn run<W: Write>(output: &mut W, case: &LentCase<'_>) -> Result<()> {
    match case {
        LentCase::Read { text, room } => lend(
            output,
            *room,
            |buffer| prune::prune_read(text, buffer),
        ),
        LentCase::Print { image, room } => lend(
            output,
            *room,
            |buffer| prune::prune_print(image, buffer),
        ),
        LentCase::Decide {
            image,
            stores,
            age,
            list,
        } => print_decision(output, prune::prune_decide(image, stores, *age, list)),
        LentCase::Check { image, stores } => print_verdict(
            output,
            prune::prune_check(image, stores),
        ),
        LentCase::Judge { text, stores } => print_verdict(output, prune::prune_judge(text, stores)),
        LentCase::Report { text, args } => report(output, text, args),
    }
}
