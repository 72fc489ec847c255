// What each slot loses: the part of its range that occurs in no plan.
ghost use Rattle.std.specs.Prelude.{◌≡◌, ◌≤◌, ◌<◌, length, take, set};
ghost use Rattle.settings.specs.Refusals.{limit};
ghost use Rattle.filter.specs.OpenIfLost.{OpenIfLost};
ghost use Rattle.rule.specs.ClassCodes.{decode, decode_all};
ghost use Rattle.requests.specs.Promise.{lowest_after, highest_after};
ghost use Rattle.requests.specs.Solution.{classes_of, possible, loss, lowest_left, highest_left};

use least::least_counts;
use requests::Loss;
use rule::{OVER, Range, UNDER};
use settings::{LIMIT, Settings};

// The n slots of a request that passes its checks, by the bytes that stand for their classes: an array of the most, since
// the copy of one has a fixed length. `least` and `fast` have slots of their own with other facts: one type for all would
// be public, and no plainer.
#[derive(Clone, Copy)]
pub(crate) struct Slots {
    pub settings: Settings,
    pub codes: [u8; LIMIT],
    pub n: usize,
    ghost few: { n ≤ limit },
    ghost long: { 1 ≤ settings.shape.len },
}

impl Slots {
    // Cuts every slot's range, given as it was lent.
    pub(crate) fn narrow(&self, lowest: &mut [i32], highest: &mut [i32])
        requires { let cs = decode_all (take self.now.n self.now.codes) in
            (length lowest.old ≡ self.now.n) × (length highest.old ≡ length lowest.old)
            × (cs ≡ classes_of self.now.settings.k lowest.old highest.old) }
        ensures { let cs = decode_all (take self.now.n self.now.codes) in
            (lowest.new ≡ lowest_left self.now.settings cs lowest.old)
            × (highest.new ≡ highest_left self.now.settings cs highest.old) }
    {
        for i in 0..lowest.len() {
            let given = Range {
                lowest: lowest[i],
                highest: highest[i],
            };
            let kept = cut(self.settings.k, self.loss_at(i), given);
            lowest[i] = kept.lowest;
            highest[i] = kept.highest;
        }
    }

    // The part of slot i's range that occurs in no plan.
    fn loss_at(&self, i: usize) -> Loss
        requires { i < self.now.n }
        ensures { result ≡ loss self.now.settings (decode_all (take self.now.n self.now.codes)) i }
    {
        if self.codes[i] == UNDER || self.codes[i] == OVER {
            return Loss::Nothing;
        }
        if !self.plan_remains(i, UNDER) {
            return Loss::Under;
        }
        if !self.plan_remains(i, OVER) {
            return Loss::Over;
        }
        Loss::Nothing
    }

    // Whether a plan is left with slot i settled to one class.
    fn plan_remains(&self, i: usize, class: u8) -> bool
        requires { i < self.now.n }
        ensures { result ≡ possible self.now.settings
            (set (decode_all (take self.now.n self.now.codes)) i (decode class)) }
    {
        let mut settled = self.codes;
        settled[i] = class;
        least_counts(self.settings, &settled[..self.n]).covered <= self.settings.covered.most
    }
}

// The range without what it loses. Only an open slot loses a part, so k + 1 is at most its highest load.
fn cut(k: i32, part: Loss, range: Range) -> Range
    requires { OpenIfLost k part range.lowest range.highest }
    ensures { (result.lowest ≡ lowest_after k part range.lowest)
        × (result.highest ≡ highest_after k part range.highest) }
{
    match part {
        Loss::Nothing => range,
        Loss::Under => Range {
            lowest: k + 1,
            ..range
        },
        Loss::Over => Range {
            highest: k,
            ..range
        },
    }
}
