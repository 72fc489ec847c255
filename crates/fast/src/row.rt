// A row of least counts, in as many steps as there are slots: a slot that must be over looks at the ends within its
// window's reach, and reaches overlap, so that what is known of their least is kept from slot to slot.
ghost use Rattle.std.specs.Prelude.{◌≡◌, cond, drop, ℕ, suc, ◌+◌, ◌≤◌};
ghost use Rattle.rule.specs.ClassCodes.{decode, decode_all};
ghost use Rattle.rule.specs.Ranges.{allows};
ghost use Rattle.rule.specs.declared.Shape.{Shape};
ghost use Rattle.settings.specs.Refusals.{limit};
ghost use Rattle.requests.specs.Solution.{sentinel};
ghost use Rattle.fast.specs.Minima.{Minima, Stepped, least_kept};
ghost use Rattle.fast.specs.Rows.{Row, Ends};

use crate::NO_PLAN;
use crate::slots::Slots;
use rule::OVER;
use settings::PLACES;

// The near ends of a slot: the first so many of those that it reaches, and the least of their counts. For the ends that
// follow them there are the minima.
#[derive(Clone, Copy)]
pub struct Near {
    pub ends: u16,
    pub least: u16,
}

// The minima of the `top` ends from slot x on: at place k the least of the first k.
fn refill(minima: &mut [u16; PLACES], ends: &[u16; PLACES], x: usize, top: u16)
    requires { x + top ≤ limit }
    ensures { Minima (drop x ends.now) top minima.new }
{
    minima[0] = NO_PLAN;
    for k in 0..top {
        let i = usize::from(k);
        minima[i + 1] = minima[i].min(ends[x + i].saturating_add(k + 1));
    }
}

// The near ends of slot x, which reaches f ends; `near` has those of the slot after it. Its own end is one more, but
// where they were as many as f already, none is near and the minima are filled anew. These are then no more than the
// slots since they were filled last, so that a row takes as many steps as it has slots.
// `refill`, `furthest` and `further` say of a reach that it ends within the slots, as `step` does: a type of its own for a
// slot and its reach would be made for each of these calls from two arrays' places, and taken apart in it.
fn step(minima: &mut [u16; PLACES], ends: &[u16; PLACES], x: usize, f: u16, near: Near) -> Near
    requires { x + f ≤ limit }
    ensures near { result.ends ≤ f }
    ensures stepped { Stepped ends.now x f near result minima.old minima.new }
{
    if near.ends < f {
        return Near {
            ends: near.ends + 1,
            least: ends[x].min(near.least).saturating_add(1),
        };
    }
    refill(minima, ends, x, f);
    Near {
        ends: 0,
        least: NO_PLAN,
    }
}

// The least count from a slot on, whose window reaches f ends; `next` is that of the slots after it.
fn value(class: u8, f: u16, near: Near, minima: &[u16; PLACES], next: u16) -> u16
    requires near { near.ends ≤ f }
    requires inside { f ≤ limit }
    ensures { result ≡ cond (allows (decode class) 0) next (least_kept f near minima.now) }
{
    if class != OVER {
        return next;
    }
    near.least.min(minima[usize::from(f - near.ends)].saturating_add(near.ends))
}

// The row for one window more than are left after the ends.
pub(crate) fn row_of(slots: &Slots, ends: &[u16; PLACES]) -> [u16; PLACES]
    ensures { (w : ℕ) → Ends slots.now.settings.shape (decode_all slots.now.classes.now) w ends.now →
        Row slots.now.settings.shape (decode_all slots.now.classes.now) (suc w) result }
{
    let mut row = [0; PLACES];
    let mut minima = [NO_PLAN; PLACES];
    let mut near = Near {
        ends: 0,
        least: NO_PLAN,
    };
    for i in (0..slots.classes.len()).rev() {
        let f = slots.reach[i];
        near = step(&mut minima, ends, i, f, near);
        row[i] = value(slots.classes[i], f, near, &minima, row[i + 1]);
    }
    row
}

// The least count from a slot on with no window, where `next` is that of the slots after it.
fn with_no_window(class: u8, next: u16) -> u16
    ensures { result ≡ cond (allows (decode class) 0) next sentinel }
{
    if class == OVER {
        return NO_PLAN;
    }
    next
}

// The row for no window.
pub(crate) fn first_row(slots: &Slots) -> [u16; PLACES]
    ensures { (shape : Shape) → Row shape (decode_all slots.now.classes.now) 0 result }
{
    let mut row = [0; PLACES];
    for i in (0..slots.classes.len()).rev() {
        row[i] = with_no_window(slots.classes[i], row[i + 1]);
    }
    row
}
