// Judging a text: read, then check.
#![tactic(auto)]

ghost use Rattle.std.specs.Prelude.{◌≡◌, ◌+◌, ◌*◌, ◌≤◌, length};
ghost use Rattle.verdict.specs.Check.{judge_of};
ghost use Rattle.verdict.specs.Guarantee.{Judged};

use image::Image;
use read::{IMAGE_BYTES, TEXT_BYTES, read_fitting};
use refusals::Cause;
use safety::check::check_rule;
use verdict::Verdict;

// Room for the image of a text of 64 bytes, and of one of 512.
const ROOM_64: usize = 4 + 13 * 64;

const ROOM_512: usize = 4 + 13 * 512;

// Judges a text of at most 2,048 bytes: reads it into a buffer that has room, and checks the rule. As in `read`, neither the room nor
// that the text is short is in a type.
fn judge_in(text: &[u8], image: &mut [u8], stores: &[u8]) -> Verdict
    requires { (length text.now ≤ 2048) × (4 + 13 * length text.now ≤ length image.old) }
    ensures { result ≡ judge_of text.now stores.now }
{
    let size = read_fitting(text, image)?;
    let written = Image::of(&image[..size]);
    check_rule(written, stores)
}

// The same, with a buffer of ROOM bytes: an array, since the project has no heap.
fn judge_within<const ROOM: usize>(text: &[u8], stores: &[u8]) -> Verdict
    requires { (length text.now ≤ 2048) × ((4 + 13 * length text.now ≤ ROOM) × (ROOM ≤ 26628)) }
    ensures { result ≡ judge_of text.now stores.now }
{
    let mut image = [0u8; ROOM];
    judge_in(text, &mut image, stores)
}

// Judges a text: reads it, and checks the rule. A short text gets a small buffer, since a large one takes time to clear.
#[tactic(auto, using(crate::proofs::Judging::judge_long, crate::proofs::Judging::judge_guarantee))]
pub fn judge(text: &[u8], stores: &[u8]) -> Verdict
    ensures { (result ≡ judge_of text.now stores.now) × Judged text.now stores.now result }
{
    if TEXT_BYTES < text.len() {
        return Err(Cause::LongText.at(0));
    }
    if text.len() <= 64 {
        return judge_within::<ROOM_64>(text, stores);
    }
    if text.len() <= 512 {
        return judge_within::<ROOM_512>(text, stores);
    }
    judge_within::<IMAGE_BYTES>(text, stores)
}
