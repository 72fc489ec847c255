// A row as what comes after a window, for a crate that draws from given marks.
ghost use Rattle.std.specs.Prelude.{ℕ};
ghost use Rattle.rule.specs.ClassCodes.{decode_all};
ghost use Rattle.fast.specs.Rows.{Row};
ghost use Rattle.fast.specs.Solved.{RowAfter};

use crate::slots::Slots;
use marks::unless_lacking;
use settings::PLACES;

// The row as what comes after a window: no plan where slots are lacking.
pub(crate) fn after_windows(slots: &Slots, row: &[u16; PLACES]) -> [u16; PLACES]
    ensures { (w : ℕ) → Row slots.now.settings.shape (decode_all slots.now.classes.now) w row.now →
        RowAfter slots.now.settings.shape (decode_all slots.now.classes.now) w result }
{
    let mut after = [0; PLACES];
    for i in 0..slots.classes.len() + 1 {
        after[i] = unless_lacking(slots.lacks[i], row[i]);
    }
    after
}
