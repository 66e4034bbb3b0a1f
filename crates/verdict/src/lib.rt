// What checking and judging answer, and the guarantee: definitions and types.
#![tactic(auto)]

pub mod grades;

use refusals::Refusal;

// What checking and judging answer.
pub type Verdict = Result<(), Refusal>;

// The largest age.
pub const OLDEST: u64 = u64::MAX;
