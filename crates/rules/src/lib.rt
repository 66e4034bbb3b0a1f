// Rules as trees: definitions, no code.
#![tactic(auto)]
