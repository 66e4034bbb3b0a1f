// Stores given as arguments: a name, a colon and a mode.
#![tactic(auto)]

ghost use Rattle.std.specs.Prelude.{◌≡◌, ◌≤◌, [], length, MatchOption};
ghost use Rattle.std.specs.Iterator.{YieldsFirstRef, item_count};
ghost use Rattle.store_args.specs.Arguments.{fault_text, named, mode_tested, given_by, arguments_in};
ghost use Rattle.store_args.specs.Inner.Filling.{given, next_arg, FirstOf};

use ascii::eq;
use slices::{ascii_from, mark_at};
use store_table::{READ_ONLY, READ_WRITE, WRITE_ONLY};

// The bytes that any table fits in.
pub const TABLE_BYTES: usize = 16_452;

// What is wrong with an argument.
#[derive(Clone, Copy, PartialEq, Eq)]
pub enum Fault {
    NoColon,
    NoMode,
    LongName,
    ForeignName,
}

impl Fault {
    // What is wrong, as a person reads it. By hand, and not by `Display`: these bytes are copied into a lent page, for the reason that
    // `lines` gives.
    pub fn text(self) -> &'static [u8]
        ensures { result.now ≡ fault_text self }
    {
        match self {
            Fault::NoColon => b"no colon; a store is given as name:mode",
            Fault::NoMode => b"no such mode; it is read-write, read-only or write-only",
            Fault::LongName => b"too long; a name has at most 255 bytes",
            Fault::ForeignName => b"a name has a byte that is not ASCII",
        }
    }
}

// The first argument that is wrong, counted from 1, and what is wrong with it.
#[derive(Clone, Copy, PartialEq, Eq)]
pub struct WrongArgument {
    pub index: usize,
    pub fault: Fault,
}

// A store that an argument gives. The mode is a table's byte: it is named once, in `mode_tested`, and copied into the table; an enum
// would be turned into that byte again.
#[derive(Clone, Copy)]
pub struct Store<'a> {
    pub mode: u8,
    pub name: &'a [u8],
}

// The store of a mode and a name.
#[tactic(auto, unfolding(crate::specs::Arguments::named))]
fn name_tested(name: &[u8], mode: u8) -> Result<Store<'_>, Fault>
    ensures { given result ≡ named mode name.now }
{
    if 255 < name.len() {
        return Err(Fault::LongName);
    }
    if !ascii_from(name, 0) {
        return Err(Fault::ForeignName);
    }
    Ok(Store { mode, name })
}

// The store of a name, and of the mode that a word names. With a match on the word's bytes the proof does not close for any other
// word, since there is a case for each byte that may differ.
#[tactic(auto, unfolding(crate::specs::Arguments::mode_tested))]
fn mode_tested<'a>(word: &[u8], name: &'a [u8]) -> Result<Store<'a>, Fault>
    ensures { given result ≡ mode_tested word.now name.now }
{
    if eq(word, b"read-write") {
        return name_tested(name, READ_WRITE);
    }
    if eq(word, b"read-only") {
        return name_tested(name, READ_ONLY);
    }
    if eq(word, b"write-only") {
        return name_tested(name, WRITE_ONLY);
    }
    Err(Fault::NoMode)
}

// The store that an argument gives.
#[tactic(auto, unfolding(crate::specs::Arguments::given_by, crate::specs::Arguments::colon_tested))]
pub fn given_by(arg: &[u8]) -> Result<Store<'_>, Fault>
    ensures { given result ≡ given_by arg.now }
{
    if 266 < arg.len() {
        return Err(Fault::LongName);
    }
    let Some(colon) = arg.iter().rposition(|b| *b == b':') else {
        return Err(Fault::NoColon);
    };
    mode_tested(&arg[colon + 1..], &arg[..colon])
}

// Where the next argument begins, or the end. No function calls it now: it stays, since it was promised.
pub fn next_arg(args: &[u8], at: usize) -> usize
    requires { at ≤ length args.now }
    ensures { result ≡ next_arg args.now at }
{
    let end = mark_at(args, at, 0);
    if end < args.len() {
        return end + 1;
    }
    end
}

// The first argument and the arguments after it, without the 0 between them; none where there are no arguments.
fn first_and_rest(args: &[u8]) -> Option<(&[u8], &[u8])>
    ensures { MatchOption result (arguments_in args.now ≡ []) (λ p. FirstOf args.now p.0.now p.1.now) }
{
    if args.is_empty() {
        return None;
    }
    // The arguments' length where there is no 0 left, which is where the last argument ends.
    let stop = mark_at(args, 0, 0);
    if stop < args.len() {
        return Some((&args[..stop], &args[stop + 1..]));
    }
    Some((&args[..stop], &args[stop..]))
}

// The arguments, one after the other. The library's `split` would give one more, empty, after the last 0, and `split_inclusive` each
// with its 0.
#[derive(Drop)]
pub struct Arguments<'a>(pub &'a [u8]);

impl<'a> Iterator for Arguments<'a> {
    type Item = &'a [u8];

    ghost next_gives = { YieldsFirstRef (λ s. arguments_in s.0.now) };

    ghost remaining = { item_count (λ s. arguments_in s.0.now) };

    fn next(&mut self) -> Option<&'a [u8]> {
        let (first, rest) = first_and_rest(self.0)?;
        self.0 = rest;
        Some(first)
    }
}

// How many arguments there are.
#[tactic(auto, using(crate::proofs::Laws::SplitLaws::arguments_few))]
pub fn count_args(args: &[u8]) -> usize
    ensures { result ≡ length (arguments_in args.now) }
{
    Arguments(args).count()
}
