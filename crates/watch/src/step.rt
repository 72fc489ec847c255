// A step of the watch: one load more.
ghost use Rattle.std.specs.Prelude.{◌≡◌};
ghost use Rattle.refusals.specs.Answer.{refuses};
ghost use Rattle.watch.specs.States.{after_slot, after_over, after_under, after as States·after};
ghost use Rattle.watch.specs.Tested.{Ready as Tested·Ready};
ghost use Rattle.watch.specs.Promise.{Steps};

use crate::Watch;
use crate::reached::MAX_TAKEN;
use refusals::Refusal;
use rule::over;

// The state that replaces the one given, and whether the load opened a window, or why it was not taken.
#[derive(Clone, Copy)]
pub struct Stepped {
    pub watch: Watch,
    pub answer: Result<bool, Refusal>,
}

// A state that passed the tests of a step.
#[derive(Clone, Copy)]
struct Ready {
    watch: Watch,
    ghost ready: { Tested·Ready watch },
}

impl Watch {
    // A refused step hands the state back as it is.
    pub fn step(self, load: i32) -> Stepped
        ensures { Steps self load result }
    {
        if !self.reached() {
            return self.refused(Refusal::Unreached);
        }
        if self.taken == MAX_TAKEN {
            return self.refused(Refusal::Full);
        }
        let ready = Ready { watch: self };
        let watch = ready.after(load);
        Stepped {
            watch,
            answer: Ok(watch.windows > self.windows),
        }
    }

    fn refused(self, refusal: Refusal) -> Stepped
        ensures { result ≡ record { watch = self; answer = refuses refusal } }
    {
        Stepped {
            watch: self,
            answer: Err(refusal),
        }
    }
}

impl Ready {
    // The state after a load, by whether the load is over or under.
    #[tactic(auto, unfolding(crate::specs::States::after))]
    fn after(self, load: i32) -> Watch
        ensures { result ≡ States·after self.watch load }
    {
        if over(self.watch.k, load) {
            return self.after_over();
        }
        self.after_under()
    }

    // An over load uses a slot of the active window, or opens a window where none is active.
    #[tactic(auto, unfolding(crate::specs::States::after_over))]
    fn after_over(self) -> Watch
        ensures { result ≡ after_over self.watch }
    {
        let watch = self.watch;
        if watch.room == 0 {
            return self.after_slot(watch.windows + 1, watch.len - 1, watch.h);
        }
        self.after_slot(watch.windows, watch.room - 1, watch.spare)
    }

    // An under load uses a slot and a bridge of the active window, or ends it where no bridge is left.
    #[tactic(auto, unfolding(crate::specs::States::after_under))]
    fn after_under(self) -> Watch
        ensures { result ≡ after_under self.watch }
    {
        let watch = self.watch;
        if watch.spare == 0 {
            return self.after_slot(watch.windows, 0, 0);
        }
        self.after_slot(watch.windows, watch.room - 1, watch.spare - 1)
    }

    // The state with one slot more taken, this many windows opened, and this much left to the active window.
    fn after_slot(self, windows: u32, room: u16, spare: u16) -> Watch
        ensures { result ≡ after_slot self.watch windows room spare }
    {
        Watch {
            taken: self.watch.taken + 1,
            windows,
            room,
            spare: if room == 0 { 0 } else { spare },
            ..self.watch
        }
    }
}
