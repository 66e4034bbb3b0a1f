// Printing: the text of the rule that an image holds, into a lent buffer.
#![tactic(auto)]

pub mod put;

ghost use Rattle.std.specs.Prelude.{◌≡◌};
ghost use Rattle.print.specs.Printed.{outcome, print_into};

use crate::put::put_rule;
use image_test::checked;
use print_text::size::text_size;
use refusals::{Cause, Refusal};

// What printing answers: the length of the text written, or a refusal.
pub type Printing = Result<usize, Refusal>;

// Prints the rule of an image into the front of a lent buffer.
pub fn print(image: &[u8], text: &mut [u8]) -> Printing
    ensures { outcome result text.new ≡ print_into image.now text.old }
{
    let rule = checked(image).ok_or(Cause::BadImage.at(0))?;
    let nodes = rule.table();
    let size = text_size(nodes, 0, nodes.count);
    if text.len() < size {
        return Err(Cause::ShortBuffer.at(0));
    }
    put_rule(nodes, 0, nodes.count, text, size);
    Ok(size)
}
