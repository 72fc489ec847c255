// Definitions (specs/), theorems (proofs/), the type of the counts that are handed back, and what a slot loses: no
// operation. The ranges of a request are two slices wherever they are passed, lowest and highest loads, as C lends them.
#![tactic(auto)]

use settings::CountRange;

// The counts of a request that has a plan: both count ranges, with their minimums raised, and the thrift, which is the
// least covered count among the plans with the fewest windows.
#[derive(Clone, Copy)]
pub struct PlanCounts {
    pub windows: CountRange,
    pub covered: CountRange,
    pub thrift: u16,
}

// What a slot loses of its range: nothing, its under part or its over part. An Option of a side would be no plainer:
// the promise (specs/Promise.antt) speaks of these three cases.
#[derive(Clone, Copy, Debug, PartialEq, Eq)]
pub enum Loss {
    Nothing,
    Under,
    Over,
}
