// Goes through comparisons by their numbers, and prints what came of them.
ghost use Rattle.std.specs.Prelude.{◌≤◌, ◌<◌};

use crate::counts::Tally;
use crate::samples::Sample;

// A line of output: its words, the settle count, the highest class of a slot, and which of the requests are compared.
#[derive(Clone, Copy)]
pub struct Line<'a> {
    pub name: &'a str,
    pub met: &'a str,
    pub settle: u16,
    pub most: u16,
    pub sampling: Sampling,
}

// All requests, or of those of more than 5 slots, for paging of more than 4, only samples.
#[derive(Clone, Copy)]
pub enum Sampling {
    All,
    Longer,
    Paged,
}

// Compares at every number of slots from first to below end, prints a line, and gives whether all agree.
pub fn run<C: Fn(&mut Tally, &Sample)>(
    rt: &impl Print,
    line: Line,
    first: u16,
    end: u16,
    compare: C,
) -> bool
    requires slots { end ≤ 9 }
    requires compare { C.IsAlwaysCallable compare }
{
    let mut tally = Tally::default();
    for n in first..end {
        for number in (0..line.requests(n)).step_by(line.step(n)) {
            let sample = Sample {
                n,
                settle: line.settle,
                most: line.most,
                number,
            };
            if sample.is_accepted() {
                add(rt, &mut tally, &sample, &compare);
            }
        }
    }
    line.print(rt, first, tally);
    tally.differ == 0
}

// Adds one comparison. The first few that differ are printed, each by its slots, its settle count and its number.
fn add<C: Fn(&mut Tally, &Sample)>(rt: &impl Print, tally: &mut Tally, sample: &Sample, compare: C)
    requires { C.IsAlwaysCallable compare }
{
    let before = tally.differ;
    compare(tally, sample);
    if tally.differ > before && before < 5 {
        let (n, settle, number) = (sample.n, sample.settle, sample.number);
        let _ = println!(rt; "differs {n} {settle} {number}");
    }
}

impl Line<'_> {
    // How many numbers there are for n slots: strings of classes, times (n + 1)^4 for len, h and both maximums. None
    // wraps for up to 8 slots.
    fn requests(self, n: u16) -> usize {
        let strings = (usize::from(self.most) + 1).wrapping_pow(u32::from(n));
        strings.wrapping_mul((usize::from(n) + 1).wrapping_pow(4))
    }

    // With a settle count above 0, samples are a fifth as many. The step has no factor in common with how many numbers
    // there are.
    fn step(self, n: u16) -> usize
        ensures { 0 < result }
    {
        match self.sampling.step(n) {
            step if step > 1 && self.settle > 0 => 5 * step,
            step => step,
        }
    }

    fn print(self, rt: &impl Print, first: u16, tally: Tally) {
        let settle = self.settle;
        if settle > 0 {
            let _ = print!(rt; "settle {settle} ");
        }
        if first > 5 {
            let _ = print!(rt; "longer ");
        }
        let name = self.name;
        let word = self.met;
        let Tally {
            compared,
            met,
            differ,
        } = tally;
        let _ = println!(rt; "{name} {compared} {word} {met} differ {differ}");
    }
}

impl Sampling {
    fn step(self, n: u16) -> usize
        ensures { (0 < result) × (result ≤ 1000003) }
    {
        match (self, n) {
            (Sampling::Longer, 6) => 101,
            (Sampling::Longer, 7) => 1009,
            (Sampling::Longer, 8) => 7703,
            (Sampling::Paged, 5) => 11,
            (Sampling::Paged, 6) => 1009,
            (Sampling::Paged, 7) => 50021,
            (Sampling::Paged, 8) => 1000003,
            _ => 1,
        }
    }
}
