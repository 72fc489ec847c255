// Where windows may end, and what comes after them.
ghost use Rattle.std.specs.Prelude.{cond, ◌≡◌, eqb, length, ℕ, ◌+◌, ◌≤◌, ◌<◌};
ghost use Rattle.rule.specs.ClassCodes.{decode, decode_all};
ghost use Rattle.rule.specs.Ranges.{allows};
ghost use Rattle.settings.specs.Refusals.{limit};
ghost use Rattle.requests.specs.Solution.{sentinel};
ghost use Rattle.fast.specs.Rows.{Row, Ends, LacksFrom};

use crate::slots::Slots;
use marks::{NO_PLAN, lacking, unless_lacking};
use rule::UNDER;
use settings::PLACES;

// At each slot's place, how many of the slots owed are lacking from there on.
pub(crate) fn lacks_of(settle: u16, classes: &[u8]) -> [u16; PLACES]
    requires { length classes.now ≤ limit }
    ensures { LacksFrom settle (decode_all classes.now) result }
{
    let mut lacks = [0; PLACES];
    for i in (0..classes.len()).rev() {
        lacks[i] = lacking(settle, classes[i], lacks[i + 1]);
    }
    lacks
}

// What comes after a window that ends with a slot of this class, before slots of which `lack` are lacking. Leaving
// slots uncovered costs nothing, so that the settle count only keeps a window from closing where one of the next slots
// must be over.
fn end(class: u8, lack: u16, count: u16) -> u16
    ensures { result ≡ cond (allows (decode class) 2) (cond (eqb lack 0) count sentinel) sentinel }
{
    if class == UNDER {
        return NO_PLAN;
    }
    unless_lacking(lack, count)
}

// What comes after a window that ends with each slot, from the row. What a row is is said for every w: how many windows it
// is of is no value here that a type could hold.
pub(crate) fn ends_of(slots: &Slots, row: &[u16; PLACES]) -> [u16; PLACES]
    ensures { (w : ℕ) → Row slots.now.settings.shape (decode_all slots.now.classes.now) w row.now →
        Ends slots.now.settings.shape (decode_all slots.now.classes.now) w result }
{
    let mut ends = [NO_PLAN; PLACES];
    for i in 0..slots.classes.len() {
        ends[i] = end(slots.classes[i], slots.lacks[i + 1], row[i + 1]);
    }
    ends
}
