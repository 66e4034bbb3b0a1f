// Reading: from a text to a rule image, by way of nodes whose room is chosen by the text's length.
#![tactic(auto)]

ghost use Rattle.std.specs.Prelude.{◌≡◌, ◌+◌, ◌*◌, ◌≤◌, length};
ghost use Rattle.grammar.specs.Reading.{read_of};
ghost use Rattle.read.specs.Outcome.{outcome, reading_of, read_into};

use nodes::Nodes;
use parse_text::parse_text;
use refusals::{Cause, Refusal};

// The bytes that any image fits in.
pub const IMAGE_BYTES: usize = 26_628;

// The bytes that a text may have.
pub const TEXT_BYTES: usize = 2048;

// What reading answers: the length of the image written, or a refusal.
pub type Reading = Result<usize, Refusal>;

// Reads a text of at most N bytes into a buffer that has room for its image. The room relates the text and the lent buffer, so no type
// of one of them has it; a type of short texts would hold the lent text, and add which text it holds to each clause.
fn read_in<const N: usize>(text: &[u8], image: &mut [u8]) -> Reading
    requires { (length text.now ≤ N) × ((N ≤ 2048) × (4 + 13 * length text.now ≤ length image.old)) }
    ensures { outcome result image.new ≡ reading_of (read_of text.now) image.old }
{
    let mut nodes = Nodes::<N>::new();
    parse_text(text, &mut nodes)?;
    Ok(image::write_image(
        image,
        &nodes.tags[..nodes.n],
        &nodes.args[..nodes.n],
        &nodes.names[..nodes.m],
    ))
}

// Reads a text of at most 2,048 bytes into a buffer that has room for its image. The room for nodes is chosen by the text's
// length.
pub fn read_fitting(text: &[u8], image: &mut [u8]) -> Reading
    requires { (length text.now ≤ 2048) × (4 + 13 * length text.now ≤ length image.old) }
    ensures { outcome result image.new ≡ reading_of (read_of text.now) image.old }
{
    if text.len() <= 64 {
        return read_in::<64>(text, image);
    }
    if text.len() <= 512 {
        return read_in::<512>(text, image);
    }
    read_in::<2048>(text, image)
}

// Reads a text into a rule image at the front of a lent buffer, which the C interface hands on: an image of its own would need a heap.
pub fn read(text: &[u8], image: &mut [u8]) -> Reading
    ensures { outcome result image.new ≡ read_into text.now image.old }
{
    let short = image.len() < IMAGE_BYTES;
    if short {
        return Err(Cause::ShortBuffer.at(0));
    }
    let long = TEXT_BYTES < text.len();
    if long {
        return Err(Cause::LongText.at(0));
    }
    read_fitting(text, image)
}
