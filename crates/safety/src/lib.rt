// The safety check of an image.
#![tactic(auto)]

pub mod check;

ghost use Rattle.std.specs.Prelude.{◌≡◌};
ghost use Rattle.verdict.specs.Check.{check_of};
ghost use Rattle.verdict.specs.Guarantee.{Checked};

use crate::check::check_rule;
use image_test::checked;
use refusals::Cause;
use verdict::Verdict;

// Checks the rule of an image: whether it may be set for these stores.
pub fn validate_safety(image: &[u8], stores: &[u8]) -> Verdict
    ensures { (result ≡ check_of image.now stores.now) × Checked image.now stores.now result }
{
    let image = checked(image).ok_or(Cause::BadImage.at(0))?;
    check_rule(image, stores)
}
