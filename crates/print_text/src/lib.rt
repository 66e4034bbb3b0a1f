// The text of a rule: definitions, laws, and how many bytes it has.
#![tactic(auto)]

pub mod size;
