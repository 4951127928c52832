//! Lemmas on lists and on functions of numbers that the proofs of several crates share. It has no code.
#![tactic(auto)]
