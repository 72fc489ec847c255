// Which parts slots keep, by the windows and gaps that fit between what lies on both sides of them.
ghost use Rattle.std.specs.Prelude.{List, true, false, reverse, ◌↔◌, ◌⊎◌, ◌≡◌, length, get_or, set, ℕ, suc, ◌+◌, ◌-◌, ◌≤◌, ◌<◌, min};
ghost use Rattle.settings.specs.Refusals.{limit};
ghost use Rattle.requests.specs.Solution.{sentinel};
ghost use Rattle.requests.specs.Best.{best};
ghost use Rattle.requests.specs.Solution.{loss};
ghost use Rattle.rule.specs.ClassCodes.{decode_all};
ghost use Rattle.rule.specs.Ranges.{under_only};
ghost use Rattle.fast.specs.Pen.{drawn_on};
ghost use Rattle.fast.specs.Lost.{lost_at};
ghost use Rattle.fast.specs.Sweep.{ReachesWith, Further, GapAt};

use crate::ends::ends_of;
use crate::losses::losses;
use crate::pen::{Pen, draw_on, draw_rest};
use crate::reach::reaches;
use crate::ring::RowRing;
use crate::row::{first_row, row_of};
use crate::slots::Slots;
use crate::turned::free_slots;
use requests::Loss;
use settings::{LIMIT, PLACES};

// The furthest end of a window from slot x on, of those that reach past `known` and fit into `room`; else `known`.
fn furthest(ends: &[u16; PLACES], x: usize, reach: u16, room: u16, known: u16) -> u16
    requires { x + reach ≤ limit }
    ensures no_nearer { known ≤ result }
    ensures met { known < result → (x < result) × (result ≤ x + reach)
        × (min sentinel (result - x + get_or ends.now (result - 1) 0) ≤ room) }
    ensures furthest { (e : ℕ) → x < e → e ≤ x + reach → min sentinel (e - x + get_or ends.now (e - 1) 0) ≤ room →
        e ≤ result }
{
    for k in (1..=reach).rev() {
        let e = x + usize::from(k);
        if e <= usize::from(known) {
            return known;
        }
        if ends[e - 1].saturating_add(k) <= room {
            // `as`, since `try_from` would give an Err that never comes.
            return e as u16;
        }
    }
    known
}

// The same of windows before which `count` slots are covered, where that and what the slots from x on need fit into the
// most.
fn further(
    count: u16,
    behind: u16,
    most: u16,
    ends: &[u16; PLACES],
    x: usize,
    reach: u16,
    known: u16,
) -> u16
    requires { x + reach ≤ limit }
    ensures { most < sentinel → (reaches starts row : List ℕ) (n : ℕ) → reach ≡ get_or reaches x 0 →
        count ≡ get_or starts (n - suc x) 0 → behind ≡ get_or row x 0 →
        Further reaches starts ends.now row n most x known result }
{
    if count.saturating_add(behind) > most {
        return known;
    }
    if count > most {
        return known;
    }
    furthest(ends, x, reach, most - count, known)
}

// The furthest ends of windows that fit between `starts` and `ends`, where they are further than those that `far` has.
// No window fits at a slot where the counts of both sides, `starts` and the row, do not fit together.
fn sweep_windows(
    slots: &Slots,
    reach: &[u16; PLACES],
    starts: &[u16; PLACES],
    ends: &[u16; PLACES],
    row: &[u16; PLACES],
    far: &mut [u16; PLACES],
)
    requires { (x : ℕ) → x ≤ length slots.now.classes.now → x + get_or reach.now x 0 ≤ length slots.now.classes.now }
    ensures { slots.now.settings.covered.most < sentinel → (x : ℕ) → x < length slots.now.classes.now →
        Further reach.now starts.now ends.now row.now (length slots.now.classes.now) slots.now.settings.covered.most x
        (get_or far.old x 0) (get_or far.new x 0) }
{
    let n = slots.classes.len();
    let most = slots.settings.covered.most;
    for x in 0..n {
        far[x] = further(starts[n - (x + 1)], row[x], most, ends, x, reach[x], far[x]);
    }
}

// Whether a slot is a gap: known before, or free where the counts of both sides fit together.
fn is_gap(free: bool, before: u16, behind: u16, most: u16, known: bool) -> bool
    ensures { most < sentinel → (result ≡ true) ↔ ((known ≡ true) ⊎ ((free ≡ true) × (before + behind ≤ most))) }
{
    known || free && before.saturating_add(behind) <= most
}

// Finds each slot that is free and where the counts of both sides fit together, besides those that were found already.
fn sweep_gaps(
    slots: &Slots,
    free: &[bool; LIMIT],
    side: &[u16; PLACES],
    row: &[u16; PLACES],
    gaps: &mut [bool; LIMIT],
)
    ensures { slots.now.settings.covered.most < sentinel → (i : ℕ) → i < length slots.now.classes.now →
        (get_or gaps.new i false ≡ true) ↔ ((get_or gaps.old i false ≡ true)
        ⊎ GapAt free.now side.now row.now (length slots.now.classes.now) slots.now.settings.covered.most i) }
{
    let n = slots.classes.len();
    let most = slots.settings.covered.most;
    for i in 0..n {
        gaps[i] = is_gap(free[i], side[n - i], row[i], most, gaps[i]);
    }
}

// The reaches of windows that keep a bridge to spare, where any have to be found.
fn spare_reaches(slots: &Slots, whole: bool) -> [u16; PLACES]
    ensures within { (x : ℕ) → x ≤ length slots.now.classes.now →
        x + get_or result x 0 ≤ length slots.now.classes.now }
    ensures spare { whole ≡ false →
        ReachesWith slots.now.settings.shape 1 (decode_all slots.now.classes.now) result }
{
    let shape = slots.settings.shape;
    if whole || shape.h == 0 {
        return [0; PLACES];
    }
    reaches(shape.len, shape.h - 1, slots.classes)
}

// Finds what slots lose, and draws on. `before` has the slots from the last to the first; `whole` says that no slot
// loses its under part, so that all count as gaps. One turn takes a window from what lies after a slot to what lies
// before it; where the counts before do not fall any more, no later turn finds anything new.
pub(crate) fn sweep(
    ring: &mut RowRing,
    before: &Slots,
    whole: bool,
    begun: Pen,
    marks: &mut [u8],
) -> [Loss; LIMIT]
    requires settings { before.now.settings ≡ ring.old.slots.now.settings }
    requires turned { decode_all before.now.classes.now ≡ reverse (decode_all ring.old.slots.now.classes.now) }
    requires all { ring.old.left ≡ ring.old.slots.now.settings.windows.most }
    requires last { ring.old.last ≤ ring.old.left }
    ensures drawn { marks.new ≡ drawn_on ring.old.slots.now.settings.shape (decode_all ring.old.slots.now.classes.now)
        (ring.old.left - 1) begun marks.old }
    ensures lost { ring.old.slots.now.settings.covered.most < sentinel →
        (whole ≡ true → (i : ℕ) → best sentinel ring.old.slots.now.settings.shape
        (set (decode_all ring.old.slots.now.classes.now) i under_only) ring.old.left
        ≤ ring.old.slots.now.settings.covered.most) →
        (i : ℕ) → i < length ring.old.slots.now.classes.now →
        lost_at result i ≡ loss ring.old.slots.now.settings (decode_all ring.old.slots.now.classes.now) i }
{
    let slots = ring.slots;
    let spare = spare_reaches(slots, whole);
    let free = free_slots(slots, before);
    let mut gaps = [whole; LIMIT];
    let mut far = [0; PLACES];
    let mut bridged = [0; PLACES];
    let mut pen = begun;
    let mut side = first_row(before);
    sweep_gaps(slots, &free, &side, &ring.row(), &mut gaps);
    // No `for`, since what is left after the loop is drawn with as many windows as are left then.
    while ring.left > 0 {
        ring.make_ready();
        let row = ring.row();
        ring.use_one();
        let next = ring.row();
        pen = draw_on(slots, &next, pen, marks);
        let ends = ends_of(slots, &next);
        let starts = ends_of(before, &side);
        let longer = row_of(before, &starts);
        sweep_windows(slots, &slots.reach, &starts, &ends, &row, &mut far);
        sweep_windows(slots, &spare, &starts, &ends, &row, &mut bridged);
        sweep_gaps(slots, &free, &longer, &next, &mut gaps);
        if longer == side {
            break;
        }
        side = longer;
    }
    draw_rest(ring, pen, marks);
    losses(slots, &far, &bridged, &gaps)
}
