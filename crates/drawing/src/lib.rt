// The first plan that begins with given marks, drawn from the first slot on, for slots that are given by what
// each can be; and the bytes that say so of a request's slots.
#![tactic(auto)]

ghost use Rattle.std.specs.Prelude.{◌≡◌, ◌+◌, take, get_or};
ghost use Rattle.std.proofs.lemmas.List.Edits.{sets};
ghost use Rattle.settings.specs.Refusals.{limit};
ghost use Rattle.rule.specs.ClassCodes.{decode_all};
ghost use Rattle.least.specs.Rows.{RowAfter};
ghost use Rattle.requests.specs.Solution.{completed, drawn_plan};

use least::row_after;
use marks::{close_window, left_of, next_mark};
use settings::{LIMIT, PLACES, Settings};

mod classes;

pub use classes::classify;

// The row to draw by after a slot with this mark: a new one where its window begins, or has no row yet since
// the front has it begin with another mark than 1. `before` is the mark before it.
fn row_for(
    settings: Settings,
    classes: &[u8],
    before: u8,
    mark: u8,
    windows: u16,
    row: [u16; PLACES],
) -> [u16; PLACES]
    ensures { let cs = decode_all (take limit classes.now) in
        (mark ≡ 0 → ⊥) → ((before ≡ 0 → ⊥) → (mark ≡ 1 → ⊥) → RowAfter settings cs (windows + 1) row) →
        RowAfter settings cs (windows + 1) result }
{
    if mark == 0 || (before != 0 && mark != 1) {
        return row;
    }
    row_after(settings, classes, windows)
}

// The mark of slot i: that of the front, or where it has ended, the one that is drawn.
fn mark_at(front: &[u8], i: usize, drawn: u8) -> u8
    ensures { result ≡ get_or front.now i drawn }
{
    front.get(i).copied().unwrap_or(drawn)
}

// Draws the first LIMIT slots into as many of the first marks (`drawn_plan`): the first plan within both
// maximums, if there is one and the covered maximum is below 65,535. The settings are not checked: a
// len of 0 counts as 1. It stays beside `complete`, as it is on the page of demands.
pub fn draw(settings: Settings, classes: &[u8], marks: &mut [u8])
    ensures { marks.new
        ≡ sets marks.old 0 (drawn_plan settings (decode_all (take limit classes.now))) }
{
    complete(settings, classes, &[], marks);
}

// Draws the first plan that begins with the front, on the same terms (`completed`).
pub fn complete(settings: Settings, classes: &[u8], front: &[u8], marks: &mut [u8])
    ensures { marks.new ≡ sets marks.old 0
        (completed settings (decode_all (take limit classes.now)) front.now) }
{
    let n = classes.len().min(marks.len()).min(LIMIT);
    let mut mark = 0;
    let mut windows = settings.windows.most;
    let mut covered = settings.covered.most;
    let mut row = [0; PLACES];
    for i in 0..n {
        let before = mark;
        let closed = close_window(before, covered, row[i]);
        mark = mark_at(front, i, next_mark(closed, classes[i]));
        windows = left_of(windows, mark == 1);
        covered = left_of(covered, mark != 0);
        row = row_for(settings, classes, before, mark, windows, row);
        marks[i] = mark;
    }
}
