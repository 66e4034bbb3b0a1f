// What a refusal is about: a place in the text, a node's name, the write-only stores. Each function takes a page and a position in it,
// for the reason that `lines` gives.
#![tactic(auto)]

ghost use Rattle.std.specs.Prelude.{min, ◌+◌, ◌*◌, ◌≤◌, length};
ghost use Rattle.slices.specs.Text.{WrittenAt};
ghost use Rattle.grammar.specs.Reading.{read_of};
ghost use Rattle.store_table.specs.Stores.{entries_in, write_only_names};
ghost use Rattle.lines.specs.Lines.{text_end, marked_line, shown_all};
ghost use Rattle.page_text.specs.Report.{node_name, confirmed_lines};

use image::Image;
use lines::{append_marked, append_shown};
use page_text::append_confirmed;
use read::IMAGE_BYTES;
use slices::end_of_last;
use store_table::{Table, WRITE_ONLY};

// The line of a text that has a place in it, marked there, or after the text's last visible byte.
pub fn append_place(page: &mut [u8], at: usize, text: &[u8], place: usize) -> usize
    requires { at + 2 * length text.now + 3 ≤ length page.old }
    ensures { WrittenAt page.old page.new at result (marked_line text.now (min place (text_end text.now))) }
{
    let end = end_of_last(text, text.len(), 33, 255);
    append_marked(page, at, text, place.min(end))
}

// The name of a node of the rule that a text reads as, by its index.
pub fn append_node(page: &mut [u8], at: usize, text: &[u8], index: usize) -> usize
    requires { at + 26_628 ≤ length page.old }
    ensures { WrittenAt page.old page.new at result (shown_all (node_name (read_of text.now) index)) }
{
    // An array of the size that fits any image: the library has no heap.
    let mut image = [0u8; IMAGE_BYTES];
    let Ok(size) = read::read(text, &mut image) else {
        return at;
    };
    let rule = Image::of(&image[..size]);
    if rule.nodes <= index {
        return at;
    }
    let node = rule.node(index);
    let named = node.kind == image::NAMED;
    if named {
        return append_shown(page, at, rule.name(node.arg));
    }
    at
}

// A line for each write-only store.
pub fn append_write_only(page: &mut [u8], at: usize, stores: Table) -> usize
    requires { at + length stores.bytes.now + 768 ≤ length page.old }
    ensures { WrittenAt page.old page.new at result (confirmed_lines (write_only_names (entries_in stores.entry.bytes.now))) }
{
    let mut end = at;
    for place in stores.entries() {
        if stores.mode(place.index) == WRITE_ONLY {
            end = append_confirmed(page, end, place.name);
        }
    }
    end
}
