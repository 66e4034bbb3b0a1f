// The digits of a number: how many there are, and the digits written into a text.
// A text and a position stay two parameters: a struct that holds a lent text would add a clause to each function and take none away.
ghost use Rattle.std.specs.Prelude.{◌≡◌, ◌≤◌, ◌+◌, length};
ghost use Rattle.slices.specs.Text.{WrittenAt};
ghost use Rattle.decimal.specs.Digits.{digits_of};

// How many digits a number has: one where it is below ten, as most parts of a duration are, so that the size of a text takes no longer
// than by division. A logarithm is a u32, for which usize has no From: it is at most 19, so the cast is lossless.
#[tactic(auto, using(crate::proofs::Laws::DigitsLaws::digits_log, crate::proofs::Laws::DigitsLaws::digits_one))]
pub fn digit_count(n: u64) -> usize
    ensures { result ≡ length (digits_of n) }
{
    if n < 10 {
        return 1;
    }
    n.ilog10() as usize + 1
}

// Writes a number's digits so that they end at a position, and answers where they begin. A `for` would first count the digits, which
// this loop finds as it divides. A digit is below ten, so its cast is lossless: by TryFrom it would have a case that never comes.
pub fn prepend_digits(text: &mut [u8], end: usize, n: u64) -> usize
    requires { (length (digits_of n) ≤ end) × (end ≤ length text.old) }
    ensures { WrittenAt text.old text.new result end (digits_of n) }
{
    let mut at = end;
    let mut left = n;
    while 10 <= left {
        at -= 1;
        text[at] = b'0' + (left % 10) as u8;
        left /= 10;
    }
    at -= 1;
    text[at] = b'0' + left as u8;
    at
}

// Writes a number's digits from a position on, and answers where they end. By hand: `write!` into lent bytes can fail, and this cannot.
#[tactic(auto, using(crate::proofs::Laws::DigitsLaws::digits_short, slices::proofs::Laws::WrittenLaws::written_at_from))]
pub fn append_digits(text: &mut [u8], at: usize, n: u64) -> usize
    requires { at + 20 ≤ length text.old }
    ensures { WrittenAt text.old text.new at result (digits_of n) }
{
    let end = at + digit_count(n);
    prepend_digits(text, end, n);
    end
}
