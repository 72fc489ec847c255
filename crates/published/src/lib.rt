// Definitions (specs/) and theorems (proofs/) only: no operation.
#![tactic(auto)]
