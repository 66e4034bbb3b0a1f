// Letters and digits of ASCII, and two byte strings compared, with or without regard to case. Each calls the library's method, and
// stays for its clause, which says the same in the words of specs/Letters.antt.
#![tactic(auto)]

ghost use Rattle.std.specs.Prelude.{◌≡◌};
ghost use Rattle.ascii.specs.Letters.{is_digit, lower, equal, equal_ignoring_case};

// Whether the byte is a decimal digit.
#[tactic(auto, unfolding(crate::specs::Letters::is_digit))]
pub fn is_digit(b: u8) -> bool
    ensures { result ≡ is_digit b }
{
    b.is_ascii_digit()
}

// A letter in lower case; any other byte as it is. No function calls it now: it stays, since it was promised.
#[tactic(auto, unfolding(crate::specs::Letters::lower))]
pub fn to_lower(b: u8) -> u8
    ensures { result ≡ lower b }
{
    b.to_ascii_lowercase()
}

// Whether the two are the same bytes.
#[tactic(auto, using(crate::proofs::Laws::EqualLaws::equal_pointwise))]
pub fn eq(a: &[u8], b: &[u8]) -> bool
    ensures { result ≡ equal a.now b.now }
{
    a == b
}

// Whether the two are the same bytes but for the case of letters.
pub fn eq_ignore_ascii_case(a: &[u8], b: &[u8]) -> bool
    ensures { result ≡ equal_ignoring_case a.now b.now }
{
    a.eq_ignore_ascii_case(b)
}
