// The first plan, drawn from the first slot on.
ghost use Rattle.std.specs.Prelude.{◌⊎◌, ◌≡◌, eqb, length, ℕ, ◌+◌, ◌-◌, ◌≤◌, ◌<◌, min};
ghost use Rattle.rule.specs.ClassCodes.{decode_all};
ghost use Rattle.requests.specs.Drawing.{left_of};
ghost use Rattle.fast.specs.Pen.{drawn_on};
ghost use Rattle.fast.specs.Rows.{Row};

use crate::ring::RowRing;
use crate::slots::Slots;
use marks::{close_window, left_of, next_mark, unless_lacking};
use settings::PLACES;

// Where a plan is drawn on: the next slot, the mark before it, and how many slots may still be covered.
#[derive(Clone, Copy)]
pub struct Pen {
    pub slot: usize,
    pub mark: u8,
    pub covered: u16,
}

// Draws on until a window opens, or to the end. The row is for as many windows as are left.
pub(crate) fn draw_on(slots: &Slots, row: &[u16; PLACES], pen: Pen, marks: &mut [u8]) -> Pen
    ensures ended { min (length slots.now.classes.now) (length marks.old) ≤ result.slot ⊎ (result.mark ≡ 1) }
    ensures further { pen.slot < min (length slots.now.classes.now) (length marks.old) → pen.slot < result.slot }
    ensures drawn { (w : ℕ) → Row slots.now.settings.shape (decode_all slots.now.classes.now) w row.now →
        drawn_on slots.now.settings.shape (decode_all slots.now.classes.now) (left_of w (eqb result.mark 1)) result
        marks.new
        ≡ drawn_on slots.now.settings.shape (decode_all slots.now.classes.now) w pen marks.old }
{
    let n = slots.classes.len().min(marks.len());
    let mut mark = pen.mark;
    let mut covered = pen.covered;
    for i in pen.slot..n {
        let closed = close_window(mark, covered, unless_lacking(slots.lacks[i], row[i]));
        mark = next_mark(closed, slots.classes[i]);
        covered = left_of(covered, mark != 0);
        marks[i] = mark;
        if mark == 1 {
            return Pen {
                slot: i + 1,
                mark,
                covered,
            };
        }
    }
    Pen {
        slot: n,
        mark,
        covered,
    }
}

// Draws all that is left, where the first of the windows left in the ring has just opened.
pub(crate) fn draw_rest(ring: &mut RowRing, begun: Pen, marks: &mut [u8])
    ensures { marks.new ≡ drawn_on ring.old.slots.now.settings.shape (decode_all ring.old.slots.now.classes.now)
        (ring.old.left - 1) begun marks.old }
{
    let slots = ring.slots;
    let n = slots.classes.len().min(marks.len());
    let mut pen = begun;
    // No `for`, since a turn goes on as far as the next window.
    while pen.slot < n {
        ring.make_ready();
        ring.use_one();
        pen = draw_on(slots, &ring.row(), pen, marks);
    }
}
