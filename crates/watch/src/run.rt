// A run of the watch: many loads.
ghost use Rattle.refusals.specs.Answer.{refusal_of};
ghost use Rattle.watch.specs.Promise.{Runs};

use crate::Watch;
use refusals::Refusal;

// The state after the loads that were taken, how many these are, and whether they are all the
// loads, or why the next one is refused.
#[derive(Clone, Copy)]
pub struct Ran {
    pub watch: Watch,
    pub taken: usize,
    pub ended: Result<(), Refusal>,
}

impl Watch {
    // Steps load by load, up to the first that is refused.
    pub fn run(self, loads: &[i32]) -> Ran
        ensures { Runs self loads.now result.watch result.taken (refusal_of result.ended) }
    {
        let mut watch = self;
        for (i, load) in loads.iter().enumerate() {
            let stepped = watch.step(*load);
            watch = stepped.watch;
            if let Err(refusal) = stepped.answer {
                return Ran {
                    watch,
                    taken: i,
                    ended: Err(refusal),
                };
            }
        }
        Ran {
            watch,
            taken: loads.len(),
            ended: Ok(()),
        }
    }
}
