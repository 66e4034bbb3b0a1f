// The lines of a list of cases: the lines of the input, a case read from a line, the memory that a call is lent, and answers printed.
#![tactic(auto)]

pub mod answers;
pub mod case;
pub mod fault;
pub mod fields;
pub mod input;
pub mod memory;
#[cfg(test)]
mod tests;
