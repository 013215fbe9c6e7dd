// No code: tests and numbers that the definitions use, and the laws of Booleans, lists and options that proofs cite.
#![tactic(auto)]
