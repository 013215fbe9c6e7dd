// No code: the three demands and what the points of a run are, as claims in `specs/`, a file each, and their proofs in
// `proofs/`.
#![tactic(auto)]
