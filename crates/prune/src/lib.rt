// The interface: five calls on bytes and numbers, each answered by one number. `prune_c` exports them to C.
#![tactic(auto)]

ghost use Rattle.std.specs.Prelude.{◌≡◌};
ghost use Rattle.read.specs.Outcome.{read_into};
ghost use Rattle.decide.specs.Decide.{decide_of};
ghost use Rattle.verdict.specs.Check.{check_of, judge_of};
ghost use Rattle.print.specs.Printed.{print_into};
ghost use Rattle.answers.specs.Answers.{of_reading, of_decision, of_verdict, of_printing};

use answers::packed;

// Reads a text into a rule image; the value is the image's length.
pub fn prune_read(text: &[u8], image: &mut [u8]) -> u64
    ensures { (result ≡ of_reading (read_into text.now image.old).answer) × (image.new ≡ (read_into text.now image.old).image) }
{
    packed(read::read(text, image))
}

// Decides on an image; the value is 1 for evict, 0 for keep.
pub fn prune_decide(image: &[u8], stores: &[u8], age: u64, list: &[u8]) -> u64
    ensures { result ≡ of_decision (decide_of image.now stores.now age list.now) }
{
    packed(decide::decide(image, stores, age, list))
}

// Checks the rule of an image; the value is 0 for a pass.
pub fn prune_check(image: &[u8], stores: &[u8]) -> u64
    ensures { result ≡ of_verdict (check_of image.now stores.now) }
{
    packed(safety::validate_safety(image, stores))
}

// Judges a text; the value is 0 for a pass.
pub fn prune_judge(text: &[u8], stores: &[u8]) -> u64
    ensures { result ≡ of_verdict (judge_of text.now stores.now) }
{
    packed(judge::judge(text, stores))
}

// Prints the rule of an image; the value is the text's length.
pub fn prune_print(image: &[u8], text: &mut [u8]) -> u64
    ensures { (result ≡ of_printing (print_into image.now text.old).answer) × (text.new ≡ (print_into image.now text.old).text) }
{
    packed(print::print(image, text))
}
