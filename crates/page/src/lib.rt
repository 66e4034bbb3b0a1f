// The page that `rulejudge` prints of a rule's text and of stores given as arguments.
#![tactic(auto)]

ghost use Rattle.slices.specs.Text.{WrittenAt};
ghost use Rattle.page_text.specs.Page.{page_of};

use args_table::table_of;
use page_text::append_argument;
use report::append_judged;
use slices::append;
use store_args::{TABLE_BYTES, count_args};
use store_table::Table;

// The bytes that any page fits in.
pub const PAGE_BYTES: usize = 32_768;

// Judges a text for the stores that arguments give, each with a 0 after it, and prints the verdict and what it means. Answers how
// many bytes were written to the front of the page: none to a page that is too short, as `page_of` says, so 0 is a length like any other.
pub fn report(text: &[u8], args: &[u8], page: &mut [u8]) -> usize
    ensures { WrittenAt page.old page.new 0 result (page_of text.now args.now page.old) }
{
    if page.len() < PAGE_BYTES {
        return 0;
    }
    let many = 64 < count_args(args);
    if many {
        return append(page, 0, b"more than 64 stores are given\n");
    }
    // An array of the size that fits any table: the library has no heap.
    let mut table = [0u8; TABLE_BYTES];
    match table_of(args, &mut table) {
        Ok(size) => {
            let stores = Table {
                bytes: &table[..size],
            };
            append_judged(page, text, stores, judge::judge(text, stores.bytes))
        }
        Err(wrong) => append_argument(page, wrong),
    }
}
