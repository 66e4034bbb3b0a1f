// Durations.
// A word and a position stay two parameters: a struct that holds a lent word would add a clause to each function and take none away.
ghost use Rattle.std.specs.Prelude.{◌≡◌, ◌≤◌, ◌<◌, true, length};
ghost use Rattle.ascii.specs.Letters.{is_digit};
ghost use Rattle.slices.specs.Text.{run_end};
ghost use Rattle.decimal.specs.Count.{all_digits};
ghost use Rattle.decimal.specs.Decimal.{decimal};
ghost use Rattle.durations.specs.Duration.{is_unit_byte, part_at, duration_of};
ghost use Rattle.durations.specs.Inner.Units.{unit_of};

use crate::unit::{TimeUnit, units};
use ascii::is_digit;
use classes::{Class, class_end, class_of};
use decimal::digit_of;
use slices::run_end;

// Where the digits that begin at a position of the word end.
fn digits_end(word: &[u8], at: usize) -> usize
    ensures { result ≡ run_end is_digit word.now at }
{
    run_end(word, at, |b| is_digit(b))
}

// A unit's name is made of bytes that are neither digits nor blanks.
#[tactic(auto, using(crate::proofs::Laws::DurationLaws::unit_digit, crate::proofs::Laws::DurationLaws::unit_other))]
fn is_unit_byte(b: u8) -> bool
    ensures { result ≡ is_unit_byte b }
{
    !is_digit(b) && class_of(b) != Class::Blank
}

// Where the bytes of a unit's name that begin at a position of the word end.
fn unit_end(word: &[u8], at: usize) -> usize
    ensures { result ≡ run_end is_unit_byte word.now at }
{
    run_end(word, at, |b| is_unit_byte(b))
}

// The number that up to nine digits write.
fn decimal_of(digits: &[u8]) -> u64
    requires { (length digits.now ≤ 9) × (all_digits digits.now ≡ true) }
    ensures { (result ≡ decimal digits.now) × (result < 1000000000) }
{
    let mut value: u64 = 0;
    for b in digits {
        value = value * 10 + digit_of(*b);
    }
    value
}

// A part of a duration, in milliseconds, and where the next one is expected.
#[derive(Clone, Copy, PartialEq, Eq)]
pub struct Part {
    pub amount: u64,
    pub next: usize,
}

// The part at a position, if there is one of this unit: 1 to 9 digits, any blanks, and the unit's name.
fn part_at(word: &[u8], at: usize, unit: &TimeUnit) -> Option<Part>
    requires { (at ≤ length word.now) × (unit.now.milliseconds ≤ 604800000) }
    ensures { result ≡ part_at (unit_of unit.now) word.now at }
{
    let digits = digits_end(word, at);
    if digits == at {
        return None;
    }
    if at + 9 < digits {
        return None;
    }
    let start = class_end(word, digits, Class::Blank);
    let end = unit_end(word, start);
    if ascii::eq(&word[start..end], unit.name) {
        let next = class_end(word, end, Class::Blank);
        return Some(Part {
            amount: decimal_of(&word[at..digits]) * unit.milliseconds,
            next,
        });
    }
    None
}

// A duration: blanks, then parts in the order of their units, each at most once, with or without blanks after them.
pub fn parse_duration(word: &[u8]) -> Option<u64>
    ensures { result ≡ duration_of word.now }
{
    let mut at = class_end(word, 0, Class::Blank);
    let mut total: u64 = 0;
    for unit in units() {
        if let Some(part) = part_at(word, at, unit) {
            total += part.amount;
            if word.len() <= part.next {
                return Some(total);
            }
            at = part.next;
        }
    }
    None
}
