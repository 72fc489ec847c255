// Whether marks are a plan of a request: the judge's yes, for the loads at the ends of the ranges on the marks' sides.
ghost use Rattle.std.specs.Prelude.{cond, true, ◌≡◌, length};
ghost use Rattle.rule.specs.Ranges.{ends_for};
ghost use Rattle.rule.specs.Rule.{goes_with};
ghost use Rattle.requests.specs.Request.{paired};
ghost use Rattle.paging.specs.Parting.{is_plan, no_plan_given};

use crate::PAGE_LIMIT;
use crate::parting::Search;
use judge::judge;

impl Search<'_> {
    // Whether marks are given that are not a plan.
    #[tactic(auto, unfolding(crate::specs::Parting::no_plan_given))]
    pub(crate) fn no_plan_given(&self) -> bool
        ensures { result ≡ no_plan_given self.now.settings self.now.lowest.now self.now.highest.now
            self.now.given.now }
    {
        !self.given.is_empty() && !self.is_plan(self.given)
    }

    // Whether marks are a plan.
    pub(crate) fn is_plan(&self, marks: &[u8]) -> bool
        requires { length marks.now ≡ length self.now.lowest.now }
        ensures { result ≡ is_plan self.now.settings self.now.lowest.now self.now.highest.now marks.now }
    {
        // The first of an array of the most: what puts into a list of fixed capacity has an error that cannot come here.
        let mut memory = [0; PAGE_LIMIT];
        let loads = &mut memory[..marks.len()];
        write_ends(self.lowest, self.highest, marks, loads);
        judge(self.settings, loads, marks).is_ok_and(|yes| yes.is_some())
    }
}

// Writes for each slot the end of its range on its mark's side.
fn write_ends(lowest: &[i32], highest: &[i32], marks: &[u8], loads: &mut [i32])
    requires { (length highest.now ≡ length lowest.now) × (length marks.now ≡ length lowest.now)
        × (length loads.old ≡ length lowest.now) }
    ensures { loads.new ≡ ends_for (paired lowest.now highest.now) marks.now }
{
    for i in 0..marks.len() {
        loads[i] = end_for(lowest[i], highest[i], marks[i]);
    }
}

#[tactic(auto, unfolding(rule::specs::Rule::goes_with))]
fn end_for(lowest: i32, highest: i32, mark: u8) -> i32
    ensures { result ≡ cond (goes_with true mark) highest lowest }
{
    match mark {
        1 | 2 => highest,
        _ => lowest,
    }
}
