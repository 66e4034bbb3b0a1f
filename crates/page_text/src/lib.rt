// What the page of `rulejudge` says: definitions, laws, and the lines that need no choice of a place, a node or a store. Each function
// takes a page and a position in it, for the reason that `lines` gives.
#![tactic(auto)]

ghost use Rattle.std.specs.Prelude.{◌+◌, ◌≤◌, length};
ghost use Rattle.slices.specs.Text.{WrittenAt};
ghost use Rattle.store_table.specs.Stores.{entries_in};
ghost use Rattle.page_text.specs.Report.{verdict_line, age_line, confirmed_line, pass_line};
ghost use Rattle.page_text.specs.Page.{argument_line};

use decimal::digits::append_digits;
use lines::append_shown;
use read_line::append_refusal;
use slices::append;
use store_args::WrongArgument;
use store_table::Table;
use verdict::{OLDEST, Verdict};

// The age at which 21 and 22 are tested.
pub fn append_age(page: &mut [u8], at: usize) -> usize
    requires { at + 64 ≤ length page.old }
    ensures { WrittenAt page.old page.new at result age_line }
{
    let word_end = append(page, at, b"age: ");
    let age_end = append_digits(page, word_end, OLDEST);
    append(page, age_end, b" ms, the largest\n")
}

// A line with a name that is confirmed.
pub fn append_confirmed(page: &mut [u8], at: usize, name: &[u8]) -> usize
    requires { at + length name.now + 12 ≤ length page.old }
    ensures { WrittenAt page.old page.new at result (confirmed_line name.now) }
{
    let word_end = append(page, at, b"confirmed: ");
    let name_end = append_shown(page, word_end, name);
    append(page, name_end, b"\n")
}

// The first line.
pub fn append_verdict(page: &mut [u8], at: usize, v: Verdict) -> usize
    requires { at + 45 ≤ length page.old }
    ensures { WrittenAt page.old page.new at result (verdict_line v) }
{
    match v {
        Ok(()) => append(page, at, b"pass\n"),
        Err(f) => append_refusal(page, at, f),
    }
}

// What a pass means: nothing was checked where there are no stores.
pub fn append_pass(page: &mut [u8], at: usize, stores: Table) -> usize
    requires { at + 72 ≤ length page.old }
    ensures { WrittenAt page.old page.new at result (pass_line (entries_in stores.entry.bytes.now)) }
{
    if stores.count() == 0 {
        return append(
            page,
            at,
            b"the rule reads; no stores are given to check it against\n",
        );
    }
    append(
        page,
        at,
        b"at any age, the rule says evict only if a readable store has confirmed\n",
    )
}

// The line of an argument that is wrong. A cast, which is proved to lose nothing: there is no `From` of `usize` into `u64`.
pub fn append_argument(page: &mut [u8], wrong: WrongArgument) -> usize
    requires { 128 ≤ length page.old }
    ensures { WrittenAt page.old page.new 0 result (argument_line wrong) }
{
    let word_end = append(page, 0, b"argument ");
    let number_end = append_digits(page, word_end, wrong.index as u64);
    let colon_end = append(page, number_end, b": ");
    let fault_end = append(page, colon_end, wrong.fault.text());
    append(page, fault_end, b"\n")
}
