// Compares refusals by the filter, the judge, the writer, paging and the start of a watch with document 01's table, as
// table.rt has it.
use crate::answers::{UNTOUCHED, keeps_most};
use crate::calls::Call;
use crate::counts::Tally;
use filter::filter;
use judge::judge;
use paging::{Page, next_plan};
use refusals::Refusal;
use watch::Watch;

// A refusal, or whether an answer that is none is right; and whether the lent slices hold what they held before.
#[derive(Clone, Copy)]
pub struct Called {
    answer: Result<bool, Refusal>,
    unaltered: bool,
}

// The comparisons, and how many of them meet each refusal, by its number, or none.
#[derive(Clone, Copy)]
struct Calls {
    tally: Tally,
    met: [(Option<u16>, u32); 13],
}

// In the order in which they are printed, which is that of the table.
const UNMET: [(Option<u16>, u32); 13] = [
    (Some(21), 0),
    (Some(22), 0),
    (Some(34), 0),
    (Some(23), 0),
    (Some(24), 0),
    (Some(25), 0),
    (Some(26), 0),
    (Some(27), 0),
    (Some(31), 0),
    (Some(28), 0),
    (Some(18), 0),
    (Some(35), 0),
    (None, 0),
];

// Compares every call whose number is below `every`, and from there on to below end samples; prints a line, and gives
// whether all agree. The step of the samples has no factor in common with how many numbers there are.
pub fn run<T: Fn(&Call) -> Result<(), u16>, C: Fn(&Call) -> Called>(
    rt: &impl Print,
    name: &str,
    every: usize,
    end: usize,
    table: T,
    called: C,
) -> bool
    requires table { T.IsAlwaysCallable table }
    requires called { C.IsAlwaysCallable called }
{
    let mut calls = Calls {
        tally: Tally::default(),
        met: UNMET,
    };
    for number in (0..every).chain((every..end).step_by(13)) {
        let call = Call::numbered(number);
        calls.add(&call, table(&call), called(&call));
    }
    calls.print(rt, name);
    calls.tally.differ == 0
}

impl Calls {
    fn add(&mut self, call: &Call, expected: Result<(), u16>, called: Called) {
        let number = expected.err();
        for (listed, count) in self.met.iter_mut() {
            if *listed == number {
                *count = count.saturating_add(1);
            }
        }
        self.tally
            .add(expected.is_err(), called.agrees(call, expected));
    }

    // A number that is not met is left out. 0 stands for none.
    fn print(&self, rt: &impl Print, name: &str) {
        let Tally {
            compared,
            differ,
            ..
        } = self.tally;
        let _ = print!(rt; "{name} {compared} met");
        for (number, count) in self.met {
            if count > 0 {
                let number = number.unwrap_or(0);
                let _ = print!(rt; " {number} {count}");
            }
        }
        let _ = println!(rt; " differ {differ}");
    }
}

impl Called {
    fn agrees(self, call: &Call, expected: Result<(), u16>) -> bool {
        match (self.answer, expected) {
            (Ok(right), Ok(())) => right,
            (Err(refusal), Err(number)) => {
                refusal.number() == number
                    && (number != 31 || call.crossed().map(usize::from) == Some(refusal.slot()))
                    && self.unaltered
            }
            _ => false,
        }
    }
}

pub fn filtered(call: &Call) -> Called {
    let settings = call.settings;
    let loads = call.lowest();
    let mut lowest = loads;
    let mut highest = [0; 67];
    let mut marks = [UNTOUCHED; 67];
    let answer = filter(
        settings,
        &mut lowest[..usize::from(call.n)],
        &mut highest[..usize::from(call.highest())],
        &mut marks[..usize::from(call.marks())],
    );
    Called {
        answer: answer.map(|plan| plan.is_some_and(|counts| keeps_most(settings, counts))),
        unaltered: lowest == loads && highest == [0; 67] && marks == [UNTOUCHED; 67],
    }
}

// The file has 16 + 8n bytes, and no byte after it is altered.
pub fn written(call: &Call) -> Called {
    let loads = call.lowest();
    let highest = [0; 67];
    let mut buffer = [UNTOUCHED; 538];
    let answer = writer::write(
        call.settings,
        &loads[..usize::from(call.n)],
        &highest[..usize::from(call.highest())],
        &mut buffer[..usize::from(call.buffer())],
    );
    let file = usize::from(call.file());
    let is_rest_untouched = is_untouched(&buffer[file..]);
    Called {
        answer: answer.map(|length| length == file && is_rest_untouched),
        unaltered: is_untouched(&buffer),
    }
}

fn is_untouched(bytes: &[u8]) -> bool {
    bytes.iter().all(|byte| *byte == UNTOUCHED)
}

// The only plan follows the empty slice, and after it there is none.
pub fn paged(call: &Call) -> Called {
    let loads = call.lowest();
    let highest = [0; 67];
    let given = call.bytes();
    let mut marks = [UNTOUCHED; 67];
    let answer = next_plan(
        call.settings,
        &loads[..usize::from(call.n)],
        &highest[..usize::from(call.highest())],
        &given[..usize::from(call.given())],
        &mut marks[..usize::from(call.marks())],
    );
    let unaltered = is_untouched(&marks);
    Called {
        answer: answer.map(|page| match page {
            Page::Next => call.given() == 0,
            Page::End => call.given() > 0 && unaltered,
        }),
        unaltered,
    }
}

pub fn judged(call: &Call) -> Called {
    let loads = [0; 67];
    let marks = [0; 67];
    let answer = judge(
        call.settings,
        &loads[..usize::from(call.n)],
        &marks[..usize::from(call.marks())],
    );
    Called {
        answer: answer.map(|_| true),
        unaltered: true,
    }
}

pub fn started(call: &Call) -> Called {
    let shape = call.settings.shape;
    Called {
        answer: Watch::start(0, shape.len, shape.h).map(|_| true),
        unaltered: true,
    }
}
