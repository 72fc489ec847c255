// How far windows reach.
ghost use Rattle.std.specs.Prelude.{List, ◌∷◌, ◌≡◌, length, drop, ℕ, suc, ◌-◌, ◌≤◌};
ghost use Rattle.rule.specs.ClassCodes.{decode, decode_all};
ghost use Rattle.rule.specs.Ranges.{Class};
ghost use Rattle.settings.specs.Refusals.{limit};
ghost use Rattle.sides.specs.Reach.{low, fit};
ghost use Rattle.fast.specs.Rows.{Reaches};
ghost use Rattle.fast.specs.Spans.{Covers};

use rule::UNDER;
use settings::PLACES;

// The slots of a window under way, and how many of them must be bridges.
#[derive(Clone, Copy)]
pub struct Span {
    pub slots: u16,
    pub bridges: u16,
}

// 1 for a slot that must be a bridge in a window, else 0.
fn bridges_of(class: u8) -> u16
    ensures { result ≡ low (decode class) }
{
    if class == UNDER {
        return 1;
    }
    0
}

// The span from slot x on, with as many slots more as a window of at most len slots and h bridges can cover.
fn extend(len: u16, h: u16, classes: &[u8], x: usize, span: Span) -> Span
    requires few { length classes.now ≤ limit }
    requires inside { x ≤ length classes.now }
    requires covers { Covers len h (drop x (decode_all classes.now)) span }
    ensures covers { Covers len h (drop x (decode_all classes.now)) result }
    ensures whole { result.slots ≡ fit (drop x (decode_all classes.now)) len h }
{
    let mut slots = span.slots;
    let mut bridges = span.bridges;
    for i in x + usize::from(slots)..classes.len() {
        if slots == len {
            return Span { slots, bridges };
        }
        let more = bridges_of(classes[i]);
        if more > h - bridges {
            return Span { slots, bridges };
        }
        bridges += more;
        slots += 1;
    }
    Span { slots, bridges }
}

// The span without its first slot.
fn without_first(class: u8, span: Span) -> Span
    requires { 1 ≤ span.slots → low (decode class) ≤ span.bridges }
    ensures { (len h : ℕ) (cs : List Class) → Covers len h (decode class ∷ cs) span → Covers len h cs result }
{
    if span.slots == 0 {
        return span;
    }
    let fewer = bridges_of(class);
    Span {
        slots: span.slots - 1,
        bridges: span.bridges - fewer,
    }
}

// At each slot's place, how many slots a window can cover from there on, of at most len slots and h bridges.
pub(crate) fn reaches(len: u16, h: u16, classes: &[u8]) -> [u16; PLACES]
    requires { length classes.now ≤ limit }
    ensures { Reaches len h (decode_all classes.now) result }
{
    // A len of 0 counts as 1.
    let most = len.max(1);
    let mut reach = [0; PLACES];
    let mut span = Span {
        slots: 0,
        bridges: 0,
    };
    for x in 0..classes.len() {
        span = extend(most, h, classes, x, span);
        reach[x] = span.slots;
        span = without_first(classes[x], span);
    }
    reach
}
