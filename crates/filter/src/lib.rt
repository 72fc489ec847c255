// The filter, in document 01's term: it cuts load ranges to the loads that occur in some plan, and
// draws the first plan. What it promises is in the crate requests: specs/Request.antt has the words of a
// request, specs/Promise.antt what comes back.
#![tactic(auto)]

ghost use Rattle.std.specs.Prelude.{◌≡◌};
ghost use Rattle.filter.specs.AnswerMeaning.{outcome_of};
ghost use Rattle.refusals.specs.Answer.{gives};
ghost use Rattle.requests.specs.Promise.{Keeps};
ghost use Rattle.requests.specs.Request.{request_of, WellFormed};
ghost use Rattle.requests.specs.Solution.{raised};

use crate::narrow::Slots;
use checks::check_request;
use drawing::{classify, draw};
use least::least_counts;
use refusals::Refusal;
use requests::PlanCounts;
use settings::{CountRange, Settings, differ};

mod narrow;

// Gives the first refusal that applies, or `None` for "no plan", or both count ranges with their minimums raised and the
// thrift. Only in the last case does it write: the ranges lose the loads that occur in no plan, and the marks become the
// first plan.
#[tactic(auto, unfolding(requests::specs::Request::filter_refusal))]
pub fn filter(
    settings: Settings,
    lowest: &mut [i32],
    highest: &mut [i32],
    marks: &mut [u8],
) -> Result<Option<PlanCounts>, Refusal>
    ensures { Keeps
        (request_of settings lowest.old highest.old marks.old)
        (outcome_of result lowest.new highest.new marks.new) }
{
    let different = differ(lowest.len(), marks.len());
    check_request(settings, lowest, highest, different)?;
    Ok(plan(settings, lowest, highest, marks))
}

// What the filter answers and writes for a request that is not refused.
fn plan(
    settings: Settings,
    lowest: &mut [i32],
    highest: &mut [i32],
    marks: &mut [u8],
) -> Option<PlanCounts>
    requires { WellFormed (request_of settings lowest.old highest.old marks.old) }
    ensures { Keeps
        (request_of settings lowest.old highest.old marks.old)
        (outcome_of (gives result) lowest.new highest.new marks.new) }
{
    let codes = classify(settings.k, lowest, highest);
    let n = lowest.len();
    let least = least_counts(settings, &codes[..n]);
    if least.covered > settings.covered.most {
        return None;
    }
    draw(settings, &codes[..n], marks);
    Slots { settings, codes, n }.narrow(lowest, highest);
    Some(PlanCounts {
        windows: raise(settings.windows, least.windows),
        covered: raise(settings.covered, least.covered),
        thrift: least.thrift,
    })
}

// The minimum becomes the least count where that is larger; the maximum does not move.
fn raise(given: CountRange, least: u16) -> CountRange
    ensures { result ≡ raised given least }
{
    CountRange {
        least: given.least.max(least),
        ..given
    }
}
