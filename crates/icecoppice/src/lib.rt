// The filter, the judge, the paging, the reader, the look-up, the writer and the watch for C, on numbers and slices,
// under names that begin with `icecoppice_`. The crate icecoppice_c exports them; include/icecoppice.h declares them.
// Eight numbers for the settings, two slices for the ranges, a code for an answer: the C interface.
#![tactic(auto)]

ghost use Rattle.std.specs.Prelude.{◌≡◌};
ghost use Rattle.judge.specs.Judgment.{judgment};
ghost use Rattle.requests.specs.Request.{request_of};
ghost use Rattle.icecoppice.specs.Numbers.{KeepsInNumbers, answer_numbers, verdict_numbers};
ghost use Rattle.icecoppice.specs.Numbers.{settings_of, without_counts};

use filter::filter;
use judge::{Counts, judge};
use refusals::Refusal;
use requests::PlanCounts;
use rule::Shape;
use settings::{CountRange, Settings};

mod files;
mod pages;
mod watches;

pub use files::{
    FoundNumbers, ReadingNumbers, WritingNumbers, icecoppice_look_up, icecoppice_read,
    icecoppice_write,
};
pub use pages::{PageNumbers, icecoppice_next_plan};
pub use watches::{StartNumbers, StepNumbers, icecoppice_watch_start, icecoppice_watch_step};

// What the filter answers, in numbers: the code is 0 for planned, 1 for no plan, else the refusal's number; what does
// not apply is 0.
#[repr(C)]
#[derive(Clone, Copy)]
pub struct AnswerNumbers {
    pub code: u16,
    pub slot: usize,
    pub windows_least: u16,
    pub windows_most: u16,
    pub covered_least: u16,
    pub covered_most: u16,
    pub thrift: u16,
}

// What the judge answers, in numbers: the code is 0 for yes, 1 for no, else the refusal's number; the counts are 0
// unless it says yes.
#[repr(C)]
#[derive(Clone, Copy)]
pub struct VerdictNumbers {
    pub code: u16,
    pub windows: u16,
    pub covered: u16,
}

pub fn icecoppice_filter(
    k: i32,
    len: u16,
    h: u16,
    settle: u16,
    windows_least: u16,
    windows_most: u16,
    covered_least: u16,
    covered_most: u16,
    lowest: &mut [i32],
    highest: &mut [i32],
    marks: &mut [u8],
) -> AnswerNumbers
    ensures { KeepsInNumbers
        (request_of (settings_of k len h settle windows_least windows_most covered_least covered_most)
        lowest.old highest.old marks.old)
        result lowest.new highest.new marks.new }
{
    let settings = gather(
        k,
        len,
        h,
        settle,
        windows_least,
        windows_most,
        covered_least,
        covered_most,
    );
    let answer = filter(settings, lowest, highest, marks);
    AnswerNumbers::from(answer)
}

pub fn icecoppice_judge(
    k: i32,
    len: u16,
    h: u16,
    settle: u16,
    windows_least: u16,
    windows_most: u16,
    covered_least: u16,
    covered_most: u16,
    loads: &[i32],
    marks: &[u8],
) -> VerdictNumbers
    ensures { result ≡ verdict_numbers (judgment
        (settings_of k len h settle windows_least windows_most covered_least covered_most)
        loads.now marks.now) }
{
    let settings = gather(
        k,
        len,
        h,
        settle,
        windows_least,
        windows_most,
        covered_least,
        covered_most,
    );
    let verdict = judge(settings, loads, marks);
    VerdictNumbers::from(verdict)
}

fn gather(
    k: i32,
    len: u16,
    h: u16,
    settle: u16,
    windows_least: u16,
    windows_most: u16,
    covered_least: u16,
    covered_most: u16,
) -> Settings
    ensures { result ≡ settings_of k len h settle windows_least windows_most covered_least covered_most }
{
    Settings {
        k,
        shape: Shape { len, h, settle },
        windows: CountRange {
            least: windows_least,
            most: windows_most,
        },
        covered: CountRange {
            least: covered_least,
            most: covered_most,
        },
    }
}

impl From<Result<Option<PlanCounts>, Refusal>> for AnswerNumbers {
    ghost from_gives = { λ answer numbers. numbers ≡ answer_numbers answer };

    fn from(answer: Result<Option<PlanCounts>, Refusal>) -> AnswerNumbers {
        match answer {
            Err(refusal) => without_counts(refusal.number(), refusal.slot()),
            Ok(None) => without_counts(1, 0),
            Ok(Some(counts)) => AnswerNumbers {
                code: 0,
                slot: 0,
                windows_least: counts.windows.least,
                windows_most: counts.windows.most,
                covered_least: counts.covered.least,
                covered_most: counts.covered.most,
                thrift: counts.thrift,
            },
        }
    }
}

fn without_counts(code: u16, slot: usize) -> AnswerNumbers
    ensures { result ≡ without_counts code slot }
{
    AnswerNumbers {
        code,
        slot,
        windows_least: 0,
        windows_most: 0,
        covered_least: 0,
        covered_most: 0,
        thrift: 0,
    }
}

impl From<Result<Option<Counts>, Refusal>> for VerdictNumbers {
    ghost from_gives = { λ verdict numbers. numbers ≡ verdict_numbers verdict };

    fn from(verdict: Result<Option<Counts>, Refusal>) -> VerdictNumbers {
        match verdict {
            Ok(Some(Counts { windows, covered })) => VerdictNumbers {
                code: 0,
                windows,
                covered,
            },
            Ok(None) => VerdictNumbers {
                code: 1,
                windows: 0,
                covered: 0,
            },
            Err(refusal) => VerdictNumbers {
                code: refusal.number(),
                windows: 0,
                covered: 0,
            },
        }
    }
}
