// Least counts of slots, where each slot is given by what it can be; and what follows from them: the first plan, and
// which part of its range each slot loses.
//
// There is one row for each number of windows: at each slot's place it has the least covered count of the slots from
// there on. What these counts are is `best` (crates/requests/specs/Best.antt). Rows of the slots from the last to the
// first count what lies before a slot; a window or an uncovered slot is part of a plan if it fits between the two sides
// (crates/sides).
#![tactic(auto)]

ghost use Rattle.std.specs.Prelude.{true, ◌≡◌, length, take, ℕ, ◌-◌, ◌≤◌, ◌<◌};
ghost use Rattle.rule.specs.ClassCodes.{decode_all};
ghost use Rattle.settings.specs.Refusals.{limit};
ghost use Rattle.requests.specs.Solution.{sentinel, loss};
ghost use Rattle.requests.specs.Best.{using_one, best};
ghost use Rattle.fast.specs.Lost.{lost_at};
ghost use Rattle.fast.specs.Pen.{drawn_on};
ghost use Rattle.fast.specs.Solved.{Solves, RowAfter};

use crate::after::after_windows;
use crate::pen::{Pen, draw_on, draw_rest};
use crate::ring::{ROWS, RowRing, fill, place};
use crate::slots::Slots;
use crate::sweep::sweep;
use crate::turned::turn;
pub use marks::NO_PLAN;
use requests::Loss;
use settings::{LIMIT, PLACES, Settings};

mod after;
mod ends;
mod losses;
mod pen;
mod reach;
mod ring;
mod row;
mod slots;
mod sweep;
mod turned;

// What is found of slots (`Solves` in specs/Solved.antt). `lost` says of each slot what it loses.
#[derive(Clone, Copy)]
pub struct Solved {
    pub windows: u16,
    pub thrift: u16,
    pub covered: u16,
    pub lost: [Loss; LIMIT],
}

// Whether no slot loses a part, by the one-more-window rule of demand 3: one window and one covered slot fewer would do.
fn nothing_lost(settle: u16, fewer: u16, most: u16) -> bool
    ensures { result ≡ true → (settle ≡ 0) × (fewer < most) }
{
    settle == 0 && fewer < most
}

// Whether no slot loses its under part, by the same rule: one window fewer would do.
fn no_under_lost(settle: u16, fewer: u16, most: u16) -> bool
    ensures { result ≡ true → (settle ≤ 1) × (fewer ≤ most) }
{
    settle <= 1 && fewer <= most
}

// Finds what slots lose, where there is a plan, and draws on from its first window. `fewer` is the least covered count
// with one window fewer.
fn find_losses(ring: &mut RowRing, fewer: u16, pen: Pen, marks: &mut [u8]) -> [Loss; LIMIT]
    requires all { ring.old.left ≡ ring.old.slots.now.settings.windows.most }
    requires last { ring.old.last ≤ ring.old.left }
    requires fewer { fewer ≡ using_one sentinel ring.old.left
        (best sentinel ring.old.slots.now.settings.shape (decode_all ring.old.slots.now.classes.now)) }
    ensures drawn { marks.new ≡ drawn_on ring.old.slots.now.settings.shape (decode_all ring.old.slots.now.classes.now)
        (ring.old.left - 1) pen marks.old }
    ensures lost { ring.old.slots.now.settings.covered.most < sentinel → (i : ℕ) →
        i < length ring.old.slots.now.classes.now →
        lost_at result i ≡ loss ring.old.slots.now.settings (decode_all ring.old.slots.now.classes.now) i }
{
    let slots = ring.slots;
    let settings = slots.settings;
    let most = settings.covered.most;
    if nothing_lost(settings.shape.settle, fewer, most) {
        draw_rest(ring, pen, marks);
        return [Loss::Nothing; LIMIT];
    }
    let whole = no_under_lost(settings.shape.settle, fewer, most);
    let turned = turn(slots);
    let before = Slots::of(settings, &turned[..slots.classes.len()]);
    sweep(ring, &before, whole, pen, marks)
}

// What comes after a window, where at most w windows are left after it: at the place of each of the first LIMIT
// slots the least covered count of the slots from there on, or NO_PLAN, also where one of the slots owed must be over,
// and 0 at the place after the last; nothing is said of later places, of which `row_after` of `least` promises 0. The
// settings are not checked: a len of 0 counts as 1.
pub fn row_after(settings: Settings, classes: &[u8], w: u16) -> [u16; PLACES]
    ensures { RowAfter settings.shape (decode_all (take limit classes.now)) w result }
{
    let slots = Slots::first(settings, classes);
    let mut rows = [[0; PLACES]; ROWS];
    let filled = fill(&slots, w, &mut rows);
    after_windows(&slots, &rows[place(filled.last)])
}

// The least counts of the first LIMIT slots, their first plan and what they lose, as `Solved` says. The settings are not
// checked: a len of 0 counts as 1.
pub fn solve(settings: Settings, classes: &[u8], marks: &mut [u8]) -> Solved
    ensures { Solves settings (decode_all (take limit classes.now)) marks.old
        marks.new result }
{
    let most = settings.covered.most;
    let slots = Slots::first(settings, classes);
    let left = settings.windows.most;
    let mut rows = [[0; PLACES]; ROWS];
    let filled = fill(&slots, left, &mut rows);
    let row = rows[place(filled.last)];
    let covered = row[0];
    let mut solved = Solved {
        windows: filled.found.windows,
        thrift: filled.found.thrift,
        covered,
        lost: [Loss::Nothing; LIMIT],
    };
    if covered > most {
        return solved;
    }
    let start = Pen {
        slot: 0,
        mark: 0,
        covered: most,
    };
    let pen = draw_on(&slots, &row, start, marks);
    let mut ring = RowRing {
        slots: &slots,
        left,
        last: filled.last,
        rows,
    };
    solved.lost = find_losses(&mut ring, filled.fewer, pen, marks);
    solved
}
