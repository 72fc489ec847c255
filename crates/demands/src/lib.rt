// Statements (specs/) and their proofs (proofs/) only: no operation.
#![tactic(auto)]
