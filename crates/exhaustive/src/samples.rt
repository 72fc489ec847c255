// Small requests by number.
ghost use Rattle.std.specs.Prelude.{◌≤◌};

use crate::loads::{ABOVE, AT, load, spread, threshold};
use crate::numbers::{Digits, next, pick};
use rule::Shape;
use settings::{CountRange, Settings};

// The number of a request of n slots with this settle count. Its classes are digits from 0 to `most`.
#[derive(Clone, Copy)]
pub struct Sample {
    pub n: u16,
    pub settle: u16,
    pub most: u16,
    pub number: usize,
    ghost small: { n ≤ 8 },
}

// A request, with the row of its threshold. Its loads are the first n of two arrays, since the planner takes two slices;
// not two of `ArrayVec<i32, 8>`, whose `clone` gives a `Result`, since a request is copied to be asked, loosened and
// settled.
#[derive(Clone, Copy)]
pub struct Request {
    pub settings: Settings,
    pub threshold: usize,
    pub n: u16,
    pub lowest: [i32; 8],
    pub highest: [i32; 8],
    ghost small: { n ≤ 8 },
}

impl Sample {
    // The number's digits are, from the lowest on: len, h, the window maximum and the covered maximum, each up to n,
    // and the class string.
    pub fn request(&self) -> Request {
        let n = self.n;
        let seed = next(next(self.number));
        let mut digits = Digits(self.number);
        let shape = shape(&mut digits, n, self.settle);
        let windows = digits.up_to(n);
        let covered = digits.up_to(n);
        let threshold = threshold(digits, seed);
        let (lowest, highest) = spread(threshold, digits, self.most, next(seed));
        Request {
            settings: Settings {
                k: load(threshold, AT),
                shape,
                windows: counts(windows, next(seed / 2)),
                covered: counts(covered, next(seed / 3)),
            },
            threshold,
            n,
            lowest,
            highest,
        }
    }

    // Whether the request has an accepted len and h.
    pub fn is_accepted(&self) -> bool {
        let shape = shape(&mut Digits(self.number), self.n, self.settle);
        shape.len > 0 && (shape.h == 0 || shape.h + 1 < shape.len)
    }
}

// The settle count with len and h, which are the two lowest digits.
fn shape(digits: &mut Digits, n: u16, settle: u16) -> Shape
    ensures { result.h ≤ n }
{
    Shape {
        len: digits.up_to(n),
        h: digits.up_to(n),
        settle,
    }
}

// A count range with this maximum. In half of the cases its minimum is 0.
fn counts(most: u16, seed: usize) -> CountRange {
    let least = match pick(seed, 1) {
        0 => 0,
        _ => pick(next(seed), most),
    };
    CountRange { least, most }
}

impl Request {
    pub fn lowest(&self) -> &[i32] {
        &self.lowest[..usize::from(self.n)]
    }

    pub fn highest(&self) -> &[i32] {
        &self.highest[..usize::from(self.n)]
    }

    // The least load above the threshold.
    pub fn above(&self) -> i32 {
        load(self.threshold, ABOVE)
    }
}
