// Facts about tests, lists and numbers that the proofs of several crates share. This crate has no operations.
#![tactic(auto)]
