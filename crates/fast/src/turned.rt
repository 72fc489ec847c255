// The slots from the last to the first, for what lies before a slot.
ghost use Rattle.std.specs.Prelude.{true, reverse, ◌↔◌, ◌≡◌, length, take, suc, ◌+◌, ◌-◌, ◌≤◌, ◌<◌};
ghost use Rattle.rule.specs.ClassCodes.{decode, decode_all};
ghost use Rattle.rule.specs.Ranges.{allows};
ghost use Rattle.fast.specs.Sweep.{FreeSlots};

use crate::slots::Slots;
use rule::OVER;
use settings::LIMIT;

// The classes from the last slot to the first: the front of an array of the most, since there is no heap, and what puts
// into a list of fixed capacity has an error that cannot come here.
pub(crate) fn turn(slots: &Slots) -> [u8; LIMIT]
    ensures { take (length slots.now.classes.now) result ≡ reverse slots.now.classes.now }
{
    let n = slots.classes.len();
    let mut turned = [0; LIMIT];
    for i in 0..n {
        turned[i] = slots.classes[n - (i + 1)];
    }
    turned
}

// Whether a slot can be left uncovered between slots of which `before` and `after` are lacking: of the slots owed, it
// and its neighbours have to have as many.
fn is_free(class: u8, settle: u16, before: u16, after: u16) -> bool
    ensures { (result ≡ true) ↔ ((allows (decode class) 0 ≡ true) × (before + after ≤ suc settle)) }
{
    class != OVER && u32::from(before) + u32::from(after) <= u32::from(settle) + 1
}

// Which slots can be left uncovered between what is lacking before them (`before`, from the last slot back) and after
// them.
pub(crate) fn free_slots(slots: &Slots, before: &Slots) -> [bool; LIMIT]
    ensures { FreeSlots slots.now.settings.shape.settle (decode_all slots.now.classes.now) before.now.lacks
        slots.now.lacks result }
{
    let n = slots.classes.len();
    let mut free = [false; LIMIT];
    for i in 0..n {
        free[i] = is_free(
            slots.classes[i],
            slots.settings.shape.settle,
            before.lacks[n - i],
            slots.lacks[i + 1],
        );
    }
    free
}
