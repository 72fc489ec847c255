// The watch for C: its state is passed by value and comes back.
ghost use Rattle.std.specs.Prelude.{◌≡◌};
ghost use Rattle.watch.specs.Start.{starting};
ghost use Rattle.icecoppice.specs.WatchNumbers.{no_watch, start_numbers, step_numbers, StepsInNumbers};

use refusals::Refusal;
use watch::{Stepped, Watch};

// What a watch's start gives, in numbers: the code 0 and a state, or the refusal's number and a state of zeros.
#[repr(C)]
#[derive(Clone, Copy)]
pub struct StartNumbers {
    pub code: u16,
    pub watch: Watch,
}

// What a step gives, in numbers: the code 0 and whether the load opened a window, or the refusal's number; and the
// state that replaces the one given.
#[repr(C)]
#[derive(Clone, Copy)]
pub struct StepNumbers {
    pub code: u16,
    pub opened: bool,
    pub watch: Watch,
}

// Starts a watch: gives its state, or code 23 or 24 and a state of zeros.
pub fn icecoppice_watch_start(k: i32, len: u16, h: u16) -> StartNumbers
    ensures { result ≡ start_numbers (starting k len h) }
{
    let started = Watch::start(k, len, h);
    StartNumbers::from(started)
}

// Takes one load more. A refused step hands the state back as it is.
pub fn icecoppice_watch_step(watch: Watch, load: i32) -> StepNumbers
    ensures { StepsInNumbers watch load result }
{
    let stepped = watch.step(load);
    StepNumbers::from(stepped)
}

impl From<Result<Watch, Refusal>> for StartNumbers {
    ghost from_gives = { λ started numbers. numbers ≡ start_numbers started };

    fn from(started: Result<Watch, Refusal>) -> StartNumbers {
        match started {
            Ok(watch) => {
                // Field by field: moved whole, a watch is stored in pieces that are slow to read back.
                let watch = Watch {
                    k: watch.k,
                    ..watch
                };
                StartNumbers { code: 0, watch }
            }
            Err(refusal) => StartNumbers {
                code: refusal.number(),
                watch: no_watch(),
            },
        }
    }
}

impl From<Stepped> for StepNumbers {
    ghost from_gives = { λ stepped numbers. numbers ≡ step_numbers stepped.answer stepped.watch };

    fn from(stepped: Stepped) -> StepNumbers {
        let watch = stepped.watch;
        match stepped.answer {
            Ok(opened) => StepNumbers {
                code: 0,
                opened,
                watch,
            },
            Err(refusal) => StepNumbers {
                code: refusal.number(),
                opened: false,
                watch,
            },
        }
    }
}

fn no_watch() -> Watch
    ensures { result ≡ no_watch }
{
    Watch {
        k: 0,
        len: 0,
        h: 0,
        taken: 0,
        windows: 0,
        room: 0,
        spare: 0,
    }
}
