// Document 01's rule, with document 02's T-06, read window by window, and a search over all strings of marks. No
// function of the planner is used here.
ghost use Rattle.std.specs.Prelude.{◌≤◌, length};

use crate::answers::Least;
use crate::samples::Request;
use crate::strings::Text;
use rule::Shape;
use std::cmp::Ordering;

// What the plans found so far have: the first one; the least counts, each by itself, and the least covered count of
// those with the fewest windows; for each slot whether loads at most k occur, and whether loads above k do: two
// arrays, since each is compared with one end of the ranges.
#[derive(Clone, Copy)]
pub struct Found {
    pub first: Text,
    pub least: Least,
    pub under: [bool; 8],
    pub over: [bool; 8],
}

// Looks at all strings of n marks, in their order.
pub fn search(request: &Request) -> Option<Found> {
    let mut found = None;
    for string in 0..request.mark_strings() {
        let marks = request.marks(string);
        if is_plan(request, marks.bytes()) {
            found = Some(with(found, marks));
        }
    }
    found
}

// The findings with one more plan.
fn with(found: Option<Found>, plan: Text) -> Found {
    let marks = plan.bytes();
    let least = Least {
        windows: windows(marks),
        covered: covered(marks),
        thrift: covered(marks),
    };
    let mut found = found.unwrap_or(Found {
        first: plan,
        least,
        under: [false; 8],
        over: [false; 8],
    });
    found.least = found.least.or(least);
    for ((mark, under), over) in marks
        .iter()
        .zip(found.under.iter_mut())
        .zip(found.over.iter_mut())
    {
        *under |= !goes_with_over(*mark);
        *over |= goes_with_over(*mark);
    }
    found
}

impl Least {
    // The least counts where plans with these and plans with others are found.
    fn or(self, other: Least) -> Least {
        Least {
            windows: self.windows.min(other.windows),
            covered: self.covered.min(other.covered),
            thrift: match self.windows.cmp(&other.windows) {
                Ordering::Less => self.thrift,
                Ordering::Equal => self.thrift.min(other.thrift),
                Ordering::Greater => other.thrift,
            },
        }
    }
}

fn goes_with_over(mark: u8) -> bool {
    mark == 1 || mark == 2
}

// Whether the marks are legal for the ranges, and keep both maximums.
pub fn is_plan(request: &Request, marks: &[u8]) -> bool {
    let settings = request.settings;
    has_loads(request, marks)
        && is_placed(settings.shape, marks)
        && windows(marks) <= usize::from(settings.windows.most)
        && covered(marks) <= usize::from(settings.covered.most)
}

// Whether each mark goes with some load of its slot's range.
fn has_loads(request: &Request, marks: &[u8]) -> bool {
    let k = request.settings.k;
    let ranges = request.lowest().iter().zip(request.highest());
    ranges.zip(marks).all(|((lowest, highest), mark)| match *mark {
        0 | 3 => *lowest <= k,
        1 | 2 => *highest > k,
        _ => false,
    })
}

// Whether each mark 1 begins a window that keeps the rule, and each 2 and 3 follows a covered slot.
fn is_placed(shape: Shape, marks: &[u8]) -> bool {
    let mut before = 0;
    for (i, mark) in marks.iter().enumerate() {
        let placed = match *mark {
            0 => true,
            1 => is_window(shape, &marks[i + 1..]),
            _ => before != 0,
        };
        if !placed {
            return false;
        }
        before = *mark;
    }
    true
}

// Whether a window keeps the rule, given the marks after its first: its last slot is no bridge, it has at most len
// slots and h bridges, and the next window is far enough.
fn is_window(shape: Shape, later: &[u8]) -> bool {
    let end = later
        .iter()
        .position(|mark| *mark < 2)
        .unwrap_or(later.len());
    let (window, after) = later.split_at(end);
    window.last() != Some(&3)
        && window.len() < usize::from(shape.len)
        && occurrences(window, 3) <= usize::from(shape.h)
        && is_far(shape.settle, after)
}

// Whether between a window and the next one, if there is one, at least this many slots are uncovered.
fn is_far(settle: u16, after: &[u8]) -> bool {
    match after.iter().position(|mark| *mark == 1) {
        Some(next) => occurrences(&after[..next], 0) >= usize::from(settle),
        None => true,
    }
}

pub fn windows(marks: &[u8]) -> usize {
    occurrences(marks, 1)
}

pub fn covered(marks: &[u8]) -> usize {
    marks.iter().filter(|mark| **mark != 0).count()
}

fn occurrences(marks: &[u8], which: u8) -> usize
    ensures { result ≤ length marks.now }
{
    marks.iter().filter(|mark| **mark == which).count()
}
