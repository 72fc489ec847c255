// Least counts of slots, where each slot is given by what it can be. There is one row for each
// number of windows: at each slot's place it has the least covered count of the slots from there
// on. What these counts are is `best` (crates/requests/specs/Best.antt).
#![tactic(auto)]

ghost use Rattle.std.specs.Prelude.{cond, ◌≡◌, ltb, ℕ, ◌+◌, ◌≤◌, ◌<◌, length, take};
ghost use Rattle.settings.specs.Refusals.{limit};
ghost use Rattle.requests.specs.Best.{using_one};
ghost use Rattle.rule.specs.ClassCodes.{decode, decode_all};
ghost use Rattle.least.specs.Counts.{Counted};
ghost use Rattle.least.specs.Rows.{Row, RowAfter, least_from, inside_from, first_below, thrift_below};
ghost use Rattle.least.specs.Rows.{extended};
ghost use Rattle.requests.specs.Solution.{sentinel};

pub use marks::NO_PLAN;
use marks::{lacking, unless_lacking};
use rule::{OVER, UNDER};
use settings::{LIMIT, PLACES, Settings};

// A window under way: the slots and bridges left to it, the slots that it has covered so far, and
// the least covered count found up to here, of the window and what comes after it.
#[derive(Clone, Copy)]
pub struct UnderWay {
    pub slots: u16,
    pub bridges: u16,
    pub covered: u16,
    pub least: u16,
}

// What comes after a window, where at most w windows are left, this one included. At each slot's place
// `after` has the least covered count of the slots from there on, with at most w - 1 windows, or NO_PLAN, also
// where one of the slots owed after the window must be over; at every place past the last slot it has 0. Where
// w is 0 it has NO_PLAN at all places. `first` is the first window count below w with which the covered maximum
// is kept, or w; a maximum of NO_PLAN is always kept. `thrift` is the least covered count with that many
// windows, or with w - 1 where `first` is w; where w is 0 it is NO_PLAN.
#[derive(Clone, Copy)]
struct Filled {
    after: [u16; PLACES],
    first: u16,
    thrift: u16,
}

// Least counts (`CountsAreLeast` in crates/requests/specs/Solution.antt). `covered` is the least
// covered count within the window maximum, or NO_PLAN where no plan covers fewer slots than that.
// `windows` is the least window count within both maximums; where there is no plan it is the window
// maximum, and where the covered maximum is NO_PLAN it is 0. `thrift` is the least covered count
// with at most `windows` windows, or NO_PLAN: of a plan, the least among those with the fewest.
#[derive(Clone, Copy)]
pub struct LeastCounts {
    pub windows: u16,
    pub thrift: u16,
    pub covered: u16,
}

// The window extended by the next slot, where `after` is the least covered count of what comes
// after that slot. A slot that can be over is taken as over, and the window may close after it; any
// other is a bridge, and where no bridge is left the window continues no further.
fn extend(window: UnderWay, class: u8, after: u16) -> UnderWay
    requires { (1 ≤ window.slots) × (window.covered < sentinel) }
    ensures { result ≡ extended window (decode class) after }
{
    let slots = window.slots - 1;
    let covered = window.covered + 1;
    if class != UNDER {
        let least = window.least.min(after.saturating_add(covered));
        return UnderWay {
            slots,
            covered,
            least,
            ..window
        };
    }
    if window.bridges == 0 {
        return UnderWay { slots: 0, ..window };
    }
    UnderWay {
        slots,
        bridges: window.bridges - 1,
        covered,
        ..window
    }
}

// The covered count to hand up after the row for v windows, which has `count` at slot 0: where the
// first window count with which the covered maximum is kept is below v, it has been found already.
fn thrift_after(first: u16, v: u16, thrift: u16, count: u16) -> u16
    ensures { result ≡ cond (ltb first v) thrift count }
{
    if first < v {
        return thrift;
    }
    count
}

// The slots that least counts are sought of, no more than a row has places for.
#[derive(Clone, Copy)]
struct Slots<'a> {
    settings: Settings,
    classes: &'a [u8],
    ghost few: { length classes.now ≤ limit },
}

// A row is handed over as an array, and what it is is said for every w: how many windows it is of is no value here that a
// type could hold.
impl<'a> Slots<'a> {
    // The first LIMIT slots, or all of them if they are fewer.
    fn first(settings: Settings, classes: &'a [u8]) -> Slots<'a>
        ensures settings { result.settings ≡ settings }
        ensures classes { result.classes.now ≡ take limit classes.now }
    {
        let n = LIMIT.min(classes.len());
        Slots {
            settings,
            classes: &classes[..n],
        }
    }

    // The least covered count of the slots from `from` on, in a window whose first slot is right before
    // them and which continues.
    fn least_inside(self, after: &[u16; PLACES], from: usize) -> u16
        requires { from ≤ length self.classes.now }
        ensures { let s = self.entry.settings in let cs = decode_all self.entry.classes.now in
            (w : ℕ) → RowAfter s cs w after.now → result ≡ using_one sentinel w (inside_from s cs from) }
    {
        let mut window = UnderWay {
            slots: self.settings.shape.len.saturating_sub(1),
            bridges: self.settings.shape.h,
            covered: 0,
            least: NO_PLAN,
        };
        for i in from..self.classes.len() {
            if window.slots == 0 {
                break;
            }
            window = extend(window, self.classes[i], after[i + 1]);
        }
        window.least
    }

    // The least covered count of the slots from slot i on, where `next` is that of the slots after it.
    fn least_from(self, after: &[u16; PLACES], i: usize, next: u16) -> u16
        requires { i < length self.classes.now }
        ensures { let s = self.entry.settings in let cs = decode_all self.entry.classes.now in
            (w : ℕ) → RowAfter s cs w after.now → next ≡ least_from s cs (i + 1) w → result ≡ least_from s cs i w }
    {
        if self.classes[i] != OVER {
            return next;
        }
        let later = self.least_inside(after, i + 1);
        after[i + 1].min(later).saturating_add(1)
    }

    // A row of least counts, computed from the row `after` of what comes after a window.
    fn next_row(self, after: &[u16; PLACES]) -> [u16; PLACES]
        ensures { let s = self.entry.settings in let cs = decode_all self.entry.classes.now in
            (w : ℕ) → RowAfter s cs w after.now → Row s cs w result }
    {
        let mut row = [0; PLACES];
        for i in (0..self.classes.len()).rev() {
            row[i] = self.least_from(after, i, row[i + 1]);
        }
        row
    }

    // What comes after a window, from a row of least counts: leaving slots uncovered costs nothing, so that the settle
    // count only keeps a window from closing where one of the next slots must be over.
    fn after_window(self, row: &[u16; PLACES]) -> [u16; PLACES]
        ensures { let s = self.entry.settings in let cs = decode_all self.entry.classes.now in
            (w : ℕ) → Row s cs w row.now → RowAfter s cs (w + 1) result }
    {
        let mut after = [0; PLACES];
        let mut lack = 0;
        for i in (0..self.classes.len()).rev() {
            lack = lacking(self.settings.shape.settle, self.classes[i], lack);
            after[i] = unless_lacking(lack, row[i]);
        }
        after
    }

    // The rows for fewer than w windows, of which only the last is kept.
    fn fill_rows(self, w: u16) -> Filled
        ensures { let s = self.entry.settings in let cs = decode_all self.entry.classes.now in
            RowAfter s cs w result.after × (result.first ≡ first_below s cs w) × (result.thrift ≡ thrift_below s cs w) }
    {
        let mut after = [NO_PLAN; PLACES];
        let mut first = 0;
        let mut thrift = NO_PLAN;
        for v in 0..w {
            let row = self.next_row(&after);
            let count = row[0];
            after = self.after_window(&row);
            thrift = thrift_after(first, v, thrift, count);
            first += u16::from(count > self.settings.covered.most);
        }
        Filled {
            after,
            first,
            thrift,
        }
    }

    // What comes after a window, where w windows are left, from the row for so many.
    fn last_row(self, w: u16) -> [u16; PLACES]
        ensures { RowAfter self.entry.settings (decode_all self.entry.classes.now) (w + 1) result }
    {
        let row = self.next_row(&self.fill_rows(w).after);
        self.after_window(&row)
    }

    // The least counts, read off the rows.
    fn least_counts(self) -> LeastCounts
        ensures { Counted self.entry.settings (decode_all self.entry.classes.now) result }
    {
        let most = self.settings.windows.most;
        let last = self.fill_rows(most);
        let covered = self.next_row(&last.after)[0];
        LeastCounts {
            windows: last.first,
            thrift: thrift_after(last.first, most, last.thrift, covered),
            covered,
        }
    }
}

// What comes after a window, where at most w windows are left after it: at the place of each of the first LIMIT
// slots the least covered count of the slots from there on, or NO_PLAN, also where one of the slots owed must be over,
// and 0 at every later place. The settings are not checked: a len of 0 counts as 1.
pub fn row_after(settings: Settings, classes: &[u8], w: u16) -> [u16; PLACES]
    ensures { RowAfter settings (decode_all (take limit classes.now)) (w + 1) result }
{
    Slots::first(settings, classes).last_row(w)
}

// The least counts of the first LIMIT slots, as `LeastCounts` says. The settings are not checked:
// a len of 0 counts as 1.
pub fn least_counts(settings: Settings, classes: &[u8]) -> LeastCounts
    ensures { Counted settings (decode_all (take limit classes.now)) result }
{
    Slots::first(settings, classes).least_counts()
}
