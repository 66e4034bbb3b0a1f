// What a person is told of a verdict on a text. Each function takes a page and a position in it, for the reason that `lines` gives.
#![tactic(auto)]

ghost use Rattle.slices.specs.Text.{WrittenAt};
ghost use Rattle.store_table.specs.Stores.{entries_in};
ghost use Rattle.page_text.specs.Report.{detail, verdict_text};
ghost use Rattle.page_text.specs.Inner.Room.{Room, VerdictRoom};

use decimal::digits::append_digits;
use details::{append_node, append_place, append_write_only};
use lines::append_meaning;
use page_text::{append_age, append_pass, append_verdict};
use refusals::{Cause, Refusal};
use slices::append;
use store_table::Table;
use verdict::Verdict;

// What a refusal of a text for these stores is about. There is no `From` of `usize` into `u64`; the cast loses nothing.
#[tactic(auto, using(slices::proofs::Laws::WrittenLaws::written_at_none), unfolding(page_text::specs::Report::detail_of))]
fn append_detail(page: &mut [u8], at: usize, text: &[u8], stores: Table, f: Refusal) -> usize
    requires { Room page.old at text.now stores.bytes.now f }
    ensures { WrittenAt page.old page.new at result (detail text.now (entries_in stores.entry.bytes.now) f) }
{
    let place = f.place;
    match f.cause {
        Cause::TwinName => {
            let word_end = append(page, at, b"argument ");
            let digits_end = append_digits(page, word_end, place as u64 + 1);
            append(page, digits_end, b"\n")
        }
        Cause::UnknownStore => {
            let name_end = append_node(page, at, text, place);
            append(page, name_end, b"\n")
        }
        Cause::Unconfirmed => {
            let nothing_end = append(page, at, b"confirmed: nothing\n");
            append_age(page, nothing_end)
        }
        Cause::ArchiveOnly => {
            let names_end = append_write_only(page, at, stores);
            append_age(page, names_end)
        }
        Cause::ShortBuffer
        | Cause::LongText
        | Cause::BadImage
        | Cause::BadStoreTable
        | Cause::BadConfirmedList => at,
        // The causes 3 to 15, which reading gives with a place in the text.
        _ => append_place(page, at, text, place),
    }
}

// A verdict on a text for these stores, and what it means.
pub fn append_judged(page: &mut [u8], text: &[u8], stores: Table, v: Verdict) -> usize
    requires { VerdictRoom page.old text.now stores.bytes.now v }
    ensures { WrittenAt page.old page.new 0 result (verdict_text text.now (entries_in stores.entry.bytes.now) v) }
{
    let line_end = append_verdict(page, 0, v);
    match v {
        Ok(()) => append_pass(page, line_end, stores),
        Err(f) => {
            let meaning_end = append_meaning(page, line_end, f.cause);
            append_detail(page, meaning_end, text, stores, f)
        }
    }
}
