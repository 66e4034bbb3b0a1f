// A duration printed, by hand: `write!` writes forward and can fail, and this writes backward from its end and cannot.
// A text and a position stay two parameters: a struct that holds a lent text would add a clause to each function and take none away.
#![tactic(auto)]

ghost use Rattle.std.specs.Prelude.{◌≡◌, ◌≤◌, length};
ghost use Rattle.slices.specs.Text.{WrittenAt};
ghost use Rattle.duration_text.specs.DurationText.{part_text, duration_text};

use decimal::digits::{digit_count, prepend_digits};
use slices::prepend;

// How many bytes a part prints as, with its unit: none where it is zero.
#[tactic(auto, using(crate::proofs::Laws::DurationTextLaws::part_zero, crate::proofs::Laws::DurationTextLaws::part_length, decimal::proofs::Laws::DigitsLaws::digits_short))]
fn part_size(k: u64, unit: &[u8]) -> usize
    requires { length unit.now ≤ 2 }
    ensures { (result ≤ 22) × (result ≡ length (part_text k unit.now)) }
{
    if k == 0 {
        return 0;
    }
    digit_count(k) + unit.len()
}

// How many bytes a duration prints as; one of whole days has no part but days. The units are named here and where they are
// written, since one list of them would want a loop from the first here, which whole days leave, and one from the last there.
#[tactic(auto, using(crate::proofs::Laws::DurationTextLaws::duration_zero, crate::proofs::Laws::DurationTextLaws::duration_days, crate::proofs::Laws::DurationTextLaws::duration_length))]
pub fn duration_size(ms: u64) -> usize
    ensures { result ≡ length (duration_text ms) }
{
    if ms == 0 {
        return 2;
    }
    let mut size = part_size(ms / 86_400_000, b"d");
    if ms % 86_400_000 == 0 {
        return size;
    }
    size += part_size(ms / 3_600_000 % 24, b"h");
    size += part_size(ms / 60_000 % 60, b"m");
    size += part_size(ms / 1_000 % 60, b"s");
    size + part_size(ms % 1_000, b"ms")
}

// Writes a part's text so that it ends at a position, and answers where it begins; nothing where it is zero.
#[tactic(auto, using(crate::proofs::Laws::DurationTextLaws::part_zero, crate::proofs::Laws::DurationTextLaws::part_length, slices::proofs::Laws::WrittenLaws::written_at_none))]
fn prepend_part(text: &mut [u8], end: usize, k: u64, unit: &[u8]) -> usize
    requires { (length (part_text k unit.now) ≤ end) × (end ≤ length text.old) }
    ensures { WrittenAt text.old text.new result end (part_text k unit.now) }
{
    if k == 0 {
        return end;
    }
    let at = prepend(text, end, unit);
    prepend_digits(text, at, k)
}

// Writes a duration's text so that it ends at a position, its last part first, and answers where it begins.
#[tactic(auto, using(crate::proofs::Laws::DurationTextLaws::duration_zero, crate::proofs::Laws::DurationTextLaws::duration_length))]
pub fn format_duration(text: &mut [u8], end: usize, ms: u64) -> usize
    requires { (length (duration_text ms) ≤ end) × (end ≤ length text.old) }
    ensures { WrittenAt text.old text.new result end (duration_text ms) }
{
    if ms == 0 {
        return prepend(text, end, b"0s");
    }
    let millis = prepend_part(text, end, ms % 1_000, b"ms");
    let seconds = prepend_part(text, millis, ms / 1_000 % 60, b"s");
    let minutes = prepend_part(text, seconds, ms / 60_000 % 60, b"m");
    let hours = prepend_part(text, minutes, ms / 3_600_000 % 24, b"h");
    prepend_part(text, hours, ms / 86_400_000, b"d")
}
