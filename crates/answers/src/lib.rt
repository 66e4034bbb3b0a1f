// Answers as one number, since C is answered one: it holds a refusal's number, or 0 where there is none, and a value.
#![tactic(auto)]

ghost use Rattle.std.specs.Prelude.{◌≡◌, ℕ};
ghost use Rattle.answers.specs.Answers.{packed_answer, packed, length_value, decision_value, pass_value};

use decide::Decision;
use refusals::Refusal;

// What an accepted call answers, as a number.
pub trait Value {
    ghost value: { Self → ℕ };

    fn value(self) -> usize
        ensures { result ≡ value self };
}

// A length that was written.
impl Value for usize {
    ghost value = { length_value };

    fn value(self) -> usize {
        self
    }
}

// 1 for evict, 0 for keep.
impl Value for Decision {
    ghost value = { decision_value };

    fn value(self) -> usize {
        match self {
            Decision::Evict => 1,
            Decision::Keep => 0,
        }
    }
}

// 0 for a pass.
impl Value for () {
    ghost value = { pass_value };

    fn value(self) -> usize {
        0
    }
}

// A refusal's number, or 0, times 2^32, and a value below 2^32. There is no `From` of `usize` into `u64`; the cast loses nothing.
fn packed_answer(number: u8, value: usize) -> u64
    ensures { result ≡ packed_answer number value }
{
    u64::from(number) * 4_294_967_296 + (value % 4_294_967_296) as u64
}

// What a call answers: its value, or its refusal.
pub fn packed<T: Value>(answer: Result<T, Refusal>) -> u64
    ensures { result ≡ packed T.value answer }
{
    match answer {
        Ok(accepted) => packed_answer(0, accepted.value()),
        Err(refusal) => packed_answer(refusal.cause.number(), refusal.place),
    }
}
