// The documents' examples, computed from the definitions.
#![tactic(auto)]
