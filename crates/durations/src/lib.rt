// Durations: the units, and a duration read.
#![tactic(auto)]

pub mod duration;
pub mod unit;
