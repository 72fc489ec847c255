// What slots lose, by the windows and gaps that were found.
ghost use Rattle.std.specs.Prelude.{◌||◌, ◌≡◌, ltb, length, get_or, ℕ, ◌+◌, ◌≤◌, ◌<◌};
ghost use Rattle.rule.specs.ClassCodes.{decode};
ghost use Rattle.settings.specs.Refusals.{limit};
ghost use Rattle.fast.specs.Lost.{lost_at};
ghost use Rattle.fast.specs.Sweep.{loss_by, under_stays, over_stays};

use crate::slots::Slots;
use requests::Loss;
use rule::{OVER, UNDER};
use settings::{LIMIT, PLACES};

// What a slot loses, by which parts stay.
fn lost_by(class: u8, under: bool, over: bool) -> Loss
    ensures { result ≡ loss_by (decode class) under over }
{
    if class == UNDER || class == OVER {
        return Loss::Nothing;
    }
    if !under {
        return Loss::Under;
    }
    if !over {
        return Loss::Over;
    }
    Loss::Nothing
}

// Whether slot i keeps its under part: in a gap, or as a bridge of a window that ends at `end` at the furthest.
fn under_stays(gap: bool, i: usize, end: u16) -> bool
    requires { i < limit }
    ensures { result ≡ (gap || ltb (i + 1) end) }
{
    gap || i + 1 < usize::from(end)
}

// What slots lose. `far` has the furthest ends of windows from each slot on, `bridged` those of windows with a bridge
// to spare, and `gaps` says of each slot whether it is in a gap.
pub(crate) fn losses(
    slots: &Slots,
    far: &[u16; PLACES],
    bridged: &[u16; PLACES],
    gaps: &[bool; LIMIT],
) -> [Loss; LIMIT]
    ensures { (i : ℕ) → i < length slots.now.classes.now → lost_at result i
        ≡ loss_by (decode (get_or slots.now.classes.now i 0))
        (under_stays gaps.now bridged.now i) (over_stays far.now i) }
{
    let mut lost = [Loss::Nothing; LIMIT];
    let mut furthest = 0;
    let mut inside = 0;
    for i in 0..slots.classes.len() {
        furthest = far[i].max(furthest);
        lost[i] = lost_by(
            slots.classes[i],
            under_stays(gaps[i], i, inside),
            i < usize::from(furthest),
        );
        inside = bridged[i].max(inside);
    }
    lost
}
