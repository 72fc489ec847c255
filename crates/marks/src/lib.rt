// The next mark of a plan that is drawn from the first slot on, and what is left after it; and the slots that a window
// lacks to close. Marks and classes are bytes: judge/src/marks.rt and rule/src/codes.rt say why.
#![tactic(auto)]

ghost use Rattle.std.specs.Prelude.{cond, ◌≡◌, eqb};
ghost use Rattle.rule.specs.ClassCodes.{decode};
ghost use Rattle.requests.specs.Drawing.{closed_mark, next_mark, left_of};
ghost use Rattle.requests.specs.Solution.{sentinel};
ghost use Rattle.sides.specs.Lacks.{lacking_before};

use rule::{OVER, UNDER};

// The covered count that stands for "no plan". Counts are capped there, so that only a smaller count is the least. It is
// a count and no Option, since the contracts and theorems of `least_counts` and `row_after` of `least` speak of it
// (`sentinel`).
pub const NO_PLAN: u16 = u16::MAX;

// The mark before the next slot, or 0 where its window closes: the slots from here on need to cover
// no more than is left. A window never closes right after a bridge.
pub fn close_window(mark: u8, covered: u16, needed: u16) -> u8
    ensures { result ≡ closed_mark mark covered needed }
{
    if mark == 3 || covered < needed {
        return mark;
    }
    0
}

// The mark of the next slot: outside a window only a slot that must be over opens one, and in a
// window only a slot that must be under is a bridge.
pub fn next_mark(mark: u8, class: u8) -> u8
    ensures { result ≡ next_mark mark (decode class) }
{
    match (mark, class) {
        (0, OVER) => 1,
        (0, _) => 0,
        (_, UNDER) => 3,
        _ => 2,
    }
}

// What is left of n after a slot that may have used one.
pub fn left_of(n: u16, used: bool) -> u16
    ensures { result ≡ left_of n used }
{
    n.saturating_sub(u16::from(used))
}

// How many of the slots owed a window lacks that closes right before this slot, up to the next slot that must be over;
// `next` is how many one lacks that closes after it.
pub fn lacking(settle: u16, class: u8, next: u16) -> u16
    ensures { result ≡ lacking_before settle (decode class) next }
{
    if class == OVER {
        return settle;
    }
    next.saturating_sub(1)
}

// The count, or NO_PLAN where slots are lacking.
pub fn unless_lacking(lack: u16, count: u16) -> u16
    ensures { result ≡ cond (eqb lack 0) count sentinel }
{
    if lack == 0 {
        return count;
    }
    NO_PLAN
}
