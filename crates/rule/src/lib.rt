// The rule of plans: its definitions are in specs/, what follows from them is in proofs/. The code here
// is what other crates share: the shape of windows, a slot's load range, the test of a load, what a
// slot can be, and the state of a scan of marks.
#![tactic(auto)]

ghost use Rattle.std.specs.Prelude.{◌≡◌};
ghost use Rattle.rule.specs.Rule.{over as Rule·over};

mod codes;

pub use codes::{EITHER, OVER, UNDER, class_of};

// The shape of windows, in document 01's letters: the most slots of a window, the most bridges in one, and the least
// number of uncovered slots between one and the next.
#[derive(Clone, Copy)]
pub struct Shape {
    pub len: u16,
    pub h: u16,
    pub settle: u16,
}

// A slot's load range, both ends included.
#[derive(Clone, Copy)]
pub struct Range {
    pub lowest: i32,
    pub highest: i32,
}

// Whether a load is over the threshold k.
pub fn over(k: i32, load: i32) -> bool
    ensures { result ≡ Rule·over k load }
{
    load > k
}

// The state of a scan of marks from the left: the last mark, 0 at the start, the slots and bridges so far of the window
// under way, and the uncovered slots owed before the next window may open.
#[derive(Clone, Copy)]
pub struct ScanState {
    pub mark: u8,
    pub slots: u16,
    pub bridges: u16,
    pub owed: u16,
}
