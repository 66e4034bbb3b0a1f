// Lines for a person: numbers, meanings, and a text with a mark under a place. Each function takes a text and a position in it: a
// struct that holds the lent text would add a clause to each function, on which text it holds, and take none away.
#![tactic(auto)]

ghost use Rattle.std.specs.Prelude.{◌≡◌, ◌++◌, ◌+◌, ◌≤◌, ◌*◌, length, replicate};
ghost use Rattle.slices.specs.Text.{bytes, WrittenAt};
ghost use Rattle.lines.specs.Lines.{line_end, numbers_line, meaning_line, shown, shown_all, marked_line};
ghost use Rattle.lines.specs.Inner.Numbered.{meaning_line_of};

use decimal::digits::append_digits;
use refusals::Cause;
use slices::{append, end_of_last, mark_at};

// A line of a word and two numbers. By hand, and not by `Display`: `write!` into lent bytes can fail, and these functions cannot.
pub fn append_numbers(text: &mut [u8], at: usize, word: &[u8], a: u64, b: u64) -> usize
    requires { at + length word.now + 42 ≤ length text.old }
    ensures { WrittenAt text.old text.new at result (numbers_line word.now a b) }
{
    let word_end = append(text, at, word);
    let a_end = append_digits(text, word_end, a);
    let blank_end = append(text, a_end, b" ");
    let b_end = append_digits(text, blank_end, b);
    append(text, b_end, b"\n")
}

// A line of a refusal's word and what it means.
pub fn append_meaning(text: &mut [u8], at: usize, cause: Cause) -> usize
    requires { at + 85 ≤ length text.old }
    ensures { WrittenAt text.old text.new at result (meaning_line cause) }
{
    let word = cause.word();
    let meaning = cause.meaning();
    let word_end = append(text, at, word.as_bytes());
    let colon_end = append(text, word_end, b": ");
    let meaning_end = append(text, colon_end, meaning.as_bytes());
    append(text, meaning_end, b"\n")
}

// The same of a refusal's number; a number that no refusal has gives `: ` and a line end.
// No function calls it now: it stays, since it was promised.
pub fn append_meaning_of(text: &mut [u8], at: usize, number: u8) -> usize
    requires { at + 85 ≤ length text.old }
    ensures { WrittenAt text.old text.new at result (meaning_line_of number) }
{
    match Cause::of_number(number) {
        Some(cause) => append_meaning(text, at, cause),
        None => append(text, at, b": \n"),
    }
}

// A byte as it is shown: a tab as a blank, and any other byte that does not print as a question mark.
#[tactic(auto, unfolding(crate::specs::Lines::shown))]
fn shown_byte(b: u8) -> u8
    ensures { result ≡ shown b }
{
    match b {
        9 => b' ',
        32..=126 => b,
        _ => b'?',
    }
}

// Appends bytes as they are shown.
pub fn append_shown(text: &mut [u8], at: usize, piece: &[u8]) -> usize
    requires { at + length piece.now ≤ length text.old }
    ensures { WrittenAt text.old text.new at result (shown_all piece.now) }
{
    for (i, b) in piece.iter().enumerate() {
        text[at + i] = shown_byte(*b);
    }
    at + piece.len()
}

// Appends a line with a mark after n blanks.
fn append_mark(text: &mut [u8], at: usize, n: usize) -> usize
    requires { at + n + 2 ≤ length text.old }
    ensures { WrittenAt text.old text.new at result (replicate n 32 ++ (bytes "^" ++ line_end)) }
{
    let mark = at + n;
    text[at..mark].fill(b' ');
    append(text, mark, b"^\n")
}

// The line of a rule that has a place in it, and a line with a mark under the place.
pub fn append_marked(text: &mut [u8], at: usize, rule: &[u8], place: usize) -> usize
    requires { (place ≤ length rule.now) × (at + 2 * length rule.now + 3 ≤ length text.old) }
    ensures { WrittenAt text.old text.new at result (marked_line rule.now place) }
{
    let start = end_of_last(rule, place, b'\n', b'\n');
    let stop = mark_at(rule, place, b'\n');
    let shown_end = append_shown(text, at, &rule[start..stop]);
    let line_end = append(text, shown_end, b"\n");
    append_mark(text, line_end, place - start)
}
