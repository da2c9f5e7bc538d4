// Definitions and laws over lists, tests and numbers that every other crate cites. No code.
#![tactic(auto)]
