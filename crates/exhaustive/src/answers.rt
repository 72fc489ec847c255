// The filter's answer, and what the filter hands back for small requests.
use crate::samples::Request;
use filter::filter;
use refusals::Refusal;
use requests::PlanCounts;
use settings::Settings;

// What the marks hold before the filter is called.
pub const UNTOUCHED: u8 = 9;

// Both minimums and the thrift.
#[derive(Clone, Copy, PartialEq, Eq)]
pub struct Least {
    pub windows: usize,
    pub covered: usize,
    pub thrift: usize,
}

// A refusal, or a changed maximum: no answer to a small request.
#[derive(Clone, Copy, PartialEq, Eq)]
pub struct Wrong;

// The answer, `None` for "no plan", and what the three arrays hold after the call, of which the first n are lent. They
// are whole arrays, so that what lies after the lent slices is compared too.
#[derive(Clone, Copy)]
pub struct Given {
    pub answer: Result<Option<Least>, Wrong>,
    pub lowest: [i32; 8],
    pub highest: [i32; 8],
    pub marks: [u8; 8],
}

impl Request {
    pub fn ask(&self) -> Given {
        let n = usize::from(self.n);
        let mut lowest = self.lowest;
        let mut highest = self.highest;
        let mut marks = [UNTOUCHED; 8];
        let answer = filter(
            self.settings,
            &mut lowest[..n],
            &mut highest[..n],
            &mut marks[..n],
        );
        Given {
            answer: least_of(self.settings, answer),
            lowest,
            highest,
            marks,
        }
    }
}

fn least_of(
    settings: Settings,
    answer: Result<Option<PlanCounts>, Refusal>,
) -> Result<Option<Least>, Wrong> {
    match answer {
        Ok(Some(counts)) if keeps_most(settings, counts) => Ok(Some(Least {
            windows: usize::from(counts.windows.least),
            covered: usize::from(counts.covered.least),
            thrift: usize::from(counts.thrift),
        })),
        Ok(None) => Ok(None),
        _ => Err(Wrong),
    }
}

// Whether both maximums are as they were given.
pub fn keeps_most(settings: Settings, counts: PlanCounts) -> bool {
    counts.windows.most == settings.windows.most && counts.covered.most == settings.covered.most
}
