// Tests demand 3 on an open slot that is settled, with the window range 0 to n: at most one more window is needed.
ghost use Rattle.std.specs.Prelude.{◌<◌};

use crate::answers::{Least, Wrong};
use crate::counts::Tally;
use crate::samples::{Request, Sample};

// Whether that has to hold (document 02, T-06). Where it does not, it is only counted how often it fails.
pub fn holds(settle: u16, over: bool) -> bool {
    if over {
        return settle == 0;
    }
    settle <= 1
}

// Settles every open slot, under or over, of the requests whose window maximum is n. Their window minimum becomes 0.
// `over` stays a flag: a closure that settles would have a condition on its slot, which each caller would repeat.
pub fn compare(tally: &mut Tally, sample: &Sample, over: bool) {
    let mut request = sample.request();
    if request.settings.windows.most != request.n {
        return;
    }
    request.settings.windows.least = 0;
    let before = request.ask().answer;
    for slot in 0..usize::from(request.n) {
        if let Some(settled) = settled(request, slot, over) {
            let stays = stays_planned(before, settled.ask().answer);
            if holds(sample.settle, over) {
                tally.add(matches!(before, Ok(Some(_))), stays);
            } else {
                tally.add(!stays, true);
            }
        }
    }
}

// Settled under, an open slot's highest load becomes the threshold. Settled over, its lowest load becomes the next
// number, and the covered maximum becomes one more, but at most n.
fn settled(request: Request, slot: usize, over: bool) -> Option<Request>
    requires { slot < 8 }
{
    let k = request.settings.k;
    if request.lowest[slot] > k || request.highest[slot] <= k {
        return None;
    }
    let mut settled = request;
    if over {
        settled.lowest[slot] = request.above();
        settled.settings.covered.most = request
            .settings
            .covered
            .most
            .saturating_add(1)
            .min(request.n);
    } else {
        settled.highest[slot] = k;
    }
    Some(settled)
}

// Whether neither is wrong, planned stays planned, and the least number of windows grows by no more than one.
fn stays_planned(
    before: Result<Option<Least>, Wrong>,
    after: Result<Option<Least>, Wrong>,
) -> bool {
    match (before, after) {
        (Ok(None), Ok(_)) => true,
        (Ok(Some(before)), Ok(Some(after))) => after.windows <= before.windows.saturating_add(1),
        _ => false,
    }
}
