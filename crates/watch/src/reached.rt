// Whether a state is one that an accepted start and steps lead to.
ghost use Rattle.std.specs.Prelude.{◌≡◌, true, ◌⊎◌, ◌↔◌};
ghost use Rattle.rule.specs.Rule.{over as Rule·over, shaped};
ghost use Rattle.watch.specs.States.{Reached};
ghost use Rattle.watch.specs.Tested.{highest, spacing as Tested·spacing, Bounded as Tested·Bounded, Idle, Active};

use crate::Watch;
use rule::{Shape, over};
use settings::{LIMIT, check_shape};

// The most slots that a watch takes.
pub(crate) const MAX_TAKEN: u32 = 1000000;

// With this threshold no load is over.
const HIGHEST: i32 = i32::MAX;

// A state with settings and counts that passed their tests, which keep the sums of the other tests small.
#[derive(Clone, Copy)]
struct Bounded {
    watch: Watch,
    ghost bounded: { Tested·Bounded watch },
}

impl Watch {
    pub(crate) fn reached(self) -> bool
        ensures { (result ≡ true) ↔ Reached self }
    {
        if check_shape(self.shape(), LIMIT).is_err() {
            return false;
        }
        if self.taken > MAX_TAKEN {
            return false;
        }
        if self.windows > self.taken {
            return false;
        }
        if !self.may_open() {
            return false;
        }
        let bounded = Bounded { watch: self };
        bounded.idle() || bounded.active()
    }

    // The shape of its windows, which may touch.
    pub(crate) fn shape(self) -> Shape
        ensures { result ≡ shaped self.len self.h }
    {
        Shape {
            len: self.len,
            h: self.h,
            settle: 0,
        }
    }

    // A window opens only at an over load, so where one was opened, some load is above the threshold.
    fn may_open(self) -> bool
        ensures { (result ≡ true) ↔ ((self.windows ≡ 0) ⊎ (Rule·over self.k highest ≡ true)) }
    {
        if self.windows == 0 {
            return true;
        }
        over(self.k, HIGHEST)
    }
}

impl Bounded {
    // No window is active, and the slots taken are enough for all the windows opened.
    fn idle(self) -> bool
        ensures { (result ≡ true) ↔ Idle self.watch }
    {
        let watch = self.watch;
        if watch.room > 0 {
            return false;
        }
        if watch.spare > 0 {
            return false;
        }
        watch.windows * self.spacing() <= watch.taken
    }

    // A window is active, it began with an over slot, and the slots taken are enough for it and all before it.
    fn active(self) -> bool
        ensures { (result ≡ true) ↔ Active self.watch }
    {
        let watch = self.watch;
        if watch.room == 0 {
            return false;
        }
        if watch.windows == 0 {
            return false;
        }
        if watch.room >= watch.len {
            return false;
        }
        if watch.spare > watch.h {
            return false;
        }
        let slots = watch.len - watch.room;
        if watch.h - watch.spare >= slots {
            return false;
        }
        (watch.windows - 1) * self.spacing() + u32::from(slots) <= watch.taken
    }

    // The least number of slots from one window's opening to the next one's.
    fn spacing(self) -> u32
        ensures { result ≡ Tested·spacing self.watch.len self.watch.h }
    {
        if self.watch.len == 1 {
            1
        } else {
            u32::from(self.watch.h) + 2
        }
    }
}
