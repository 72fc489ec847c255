// Marks scanned from the left: whether they are legal for loads, and how many windows and covered slots they have.
// They stay bytes, as C lends them and the judge takes any.
ghost use Rattle.std.specs.Prelude.{◌≡◌, ◌≤◌, ◌<◌, length};
ghost use Rattle.rule.specs.Rule.{follows, goes_with, legal as Rule·legal, windows, covered};
ghost use Rattle.settings.specs.Refusals.{limit};
ghost use Rattle.rule.specs.ScanState.{too_soon, advanced};
ghost use Rattle.judge.specs.ScanStep.{step_of};

use crate::Counts;
use rule::{ScanState, Shape, over};
use settings::Settings;

// The tests of one slot's mark, against its load and against the mark before it.
#[tactic(auto, unfolding(rule::specs::Rule::goes_with))]
fn goes_with(over: bool, mark: u8) -> bool
    ensures { result ≡ goes_with over mark }
{
    if over {
        matches!(mark, 1..=2)
    } else {
        matches!(mark, 0 | 3)
    }
}

// A match on both bytes, with a range for those above 3, is the form that document 01 names.
#[tactic(auto, unfolding(rule::specs::Rule::follows))]
fn may_follow(previous: u8, mark: u8) -> bool
    ensures { result ≡ follows previous mark }
{
    match (previous, mark) {
        (0..=2, 0..=1) => true,
        (1..=3, 2..=3) => true,
        (_, 4..=255) => false,
        _ => false,
    }
}

// The scan state after a slot with this mark. A window that opens has no bridges yet (document 02, T-04) and owes its
// settle count, which the uncovered slots after it pay off.
#[tactic(auto, unfolding(rule::specs::ScanState::slots_after, rule::specs::ScanState::bridges_after, rule::specs::ScanState::owed_after))]
fn advance(settle: u16, at: ScanState, mark: u8) -> ScanState
    requires { (at.slots < limit) × (at.bridges < limit) }
    ensures { result ≡ advanced settle at mark }
{
    ScanState {
        mark,
        slots: match mark {
            1 => 1,
            2..=3 => at.slots + 1,
            _ => 0,
        },
        bridges: match mark {
            2 => at.bridges,
            3 => at.bridges + 1,
            _ => 0,
        },
        owed: match mark {
            0 => at.owed.saturating_sub(1),
            1 => settle,
            _ => at.owed,
        },
    }
}

// Whether a slot with this mark opens a window while slots are owed.
#[tactic(auto, unfolding(rule::specs::ScanState::too_soon))]
fn too_soon(owed: u16, mark: u8) -> bool
    ensures { result ≡ too_soon owed mark }
{
    mark == 1 && owed > 0
}

// The state after one more slot, given its mark and whether its load is over; `None` where its mark breaks the rule.
#[tactic(auto, unfolding(crate::specs::ScanStep::passes, crate::specs::ScanStep::step_of))]
fn scan_slot(shape: Shape, at: ScanState, over: bool, mark: u8) -> Option<ScanState>
    requires { (at.slots < limit) × (at.bridges < limit) }
    ensures { result ≡ step_of shape at over mark }
{
    if !goes_with(over, mark) || !may_follow(at.mark, mark) || too_soon(at.owed, mark) {
        return None;
    }
    let next = advance(shape.settle, at, mark);
    if next.slots > shape.len || next.bridges > shape.h {
        return None;
    }
    Some(next)
}

// Scans the plan from slot 0 on, and stops where a mark breaks the rule.
pub(crate) fn legal(settings: Settings, loads: &[i32], marks: &[u8]) -> bool
    requires { (length loads.now ≡ length marks.now) × (length marks.now ≤ limit) }
    ensures { result ≡ Rule·legal settings.k settings.shape loads.now marks.now }
{
    let mut at = ScanState {
        mark: 0,
        slots: 0,
        bridges: 0,
        owed: 0,
    };
    for (&load, &mark) in loads.iter().zip(marks) {
        let Some(next) = scan_slot(settings.shape, at, over(settings.k, load), mark) else {
            return false;
        };
        at = next;
    }
    at.mark != 3
}

pub(crate) fn count_marks(marks: &[u8]) -> Counts
    requires { length marks.now ≤ limit }
    ensures { (result.windows ≡ windows marks.now) × (result.covered ≡ covered marks.now) }
{
    let mut seen = Counts {
        windows: 0,
        covered: 0,
    };
    // In one go, and not as two counts of what a filter lets through, which take longer.
    for mark in marks {
        seen.windows += u16::from(*mark == 1);
        seen.covered += u16::from(*mark != 0);
    }
    seen
}
