// The judge, as document 01 calls it: whether a finished plan is allowed. What it says is in specs/Judgment.antt.
#![tactic(auto)]

ghost use Rattle.std.specs.Prelude.{◌≡◌};
ghost use Rattle.judge.specs.Judgment.{judgment};

use crate::marks::{count_marks, legal};
use refusals::Refusal;
use settings::{Settings, check, differ};

mod marks;

// How many windows marks draw, and how many slots they cover. Fewer windows come first, then fewer covered slots.
#[derive(Clone, Copy, Debug, PartialEq, Eq, PartialOrd, Ord)]
pub struct Counts {
    pub windows: u16,
    pub covered: u16,
}

// Says yes, with the window and covered counts, exactly when the marks are legal for the loads and
// neither count is above its maximum. `None` is no.
#[tactic(auto, unfolding(crate::specs::Judgment::judgment, crate::specs::Judgment::allowed))]
pub fn judge(settings: Settings, loads: &[i32], marks: &[u8]) -> Result<Option<Counts>, Refusal>
    ensures { result ≡ judgment settings loads.now marks.now }
{
    check(settings, loads.len(), differ(loads.len(), marks.len()))?;
    if !legal(settings, loads, marks) {
        return Ok(None);
    }
    let seen = count_marks(marks);
    if seen.windows > settings.windows.most || seen.covered > settings.covered.most {
        return Ok(None);
    }
    Ok(Some(seen))
}
