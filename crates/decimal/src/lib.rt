// Numbers in decimal: a count read, and digits written.
#![tactic(auto)]

pub mod count;
pub mod digits;

ghost use Rattle.std.specs.Prelude.{◌≡◌, true};
ghost use Rattle.ascii.specs.Letters.{is_digit};
ghost use Rattle.decimal.specs.Decimal.{digit_value};

// The number that a digit writes.
#[tactic(auto, using(crate::proofs::Laws::DecimalLaws::digit_within))]
pub fn digit_of(b: u8) -> u64
    requires { is_digit b ≡ true }
    ensures { result ≡ digit_value b }
{
    u64::from(b - b'0')
}
