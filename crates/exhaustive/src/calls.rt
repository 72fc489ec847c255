// Calls at and around the limits of document 01's table of refusals, by number.
ghost use Rattle.std.specs.Prelude.{◌≤◌, ◌+◌};

use crate::numbers::Digits;
use rule::Shape;
use settings::{CountRange, Settings};

pub const STARTS: usize = 30;

// With the first settle count: calls of the judge; of the filter, and of the writer.
pub const JUDGE_CALLS: usize = 138240;

pub const FILTER_CALLS: usize = 1658880;

// With every settle count: calls of each of these; of paging.
pub const CALLS: usize = 13271040;

pub const PAGING_CALLS: usize = 66355200;

// A call of one of the operations, each of which takes what it has. n is the length of the first slice.
#[derive(Clone, Copy)]
pub struct Call {
    pub settings: Settings,
    pub n: u16,
    highest: Length,
    // Of the marks, and of the writer's buffer.
    lent: Length,
    pub given: Given,
    crossed: Option<Place>,
    ghost slots_fit: { n ≤ 65 },
}

// A length: what it should be, one more, or one less.
#[derive(Clone, Copy)]
pub enum Length {
    Right,
    Longer,
    Shorter,
}

// The bytes of the given plan: zeros, n bytes that are no plan, or none. Where no slot is crossed all loads are 0, and k
// too, so that the only plan is 0 at each slot.
#[derive(Clone, Copy)]
pub enum Given {
    Zeros(Length),
    NoPlan,
    Empty,
}

// The first crossed slot: the first one, the last, or one in the middle, where the slot after it is crossed too.
#[derive(Clone, Copy, PartialEq, Eq)]
enum Place {
    First,
    Last,
    Middle,
}

impl Call {
    // Each digit of the number chooses one part. From the lowest on there are 6 choices of len, 5 of h, 6 of the slots,
    // 3 of the length of the marks, 16 of the window range, 16 of the covered range, 3 of the length of the highest
    // loads, 4 of the crossed slots, 8 of the settle count, and 5 of the given plan. The first two digits, with 64
    // slots, make the starts of a watch; the judge has no highest loads and no crossed slots; the writer has a buffer in
    // place of the marks; only paging has a given plan.
    pub fn numbered(number: usize) -> Call {
        let mut digits = Digits(number);
        let len = digits.up_to(5);
        let h = digits.up_to(4);
        let n = slots(digits.up_to(5));
        let lent = Length::numbered(digits.up_to(2));
        let windows = counts(n, digits.up_to(15));
        let covered = counts(n, digits.up_to(15));
        let highest = Length::numbered(digits.up_to(2));
        let crossed = Place::numbered(digits.up_to(3));
        let settle = settle(digits.up_to(7));
        Call {
            // The limits of both count ranges are around n.
            settings: Settings {
                k: 0,
                shape: shape(n, len, h, settle),
                windows,
                covered,
            },
            n,
            highest,
            lent,
            given: Given::numbered(digits.up_to(4)),
            crossed,
        }
    }

    // The lowest loads; all highest loads are 0.
    pub fn lowest(&self) -> [i32; 67] {
        let mut loads = [0; 67];
        if let Some(place) = self.crossed {
            let slot = usize::from(place.slot(self.n));
            loads[slot] = 1;
            loads[slot + 1] = i32::from(place == Place::Middle);
        }
        loads
    }

    pub fn crossed(&self) -> Option<u16> {
        Some(self.crossed?.slot(self.n))
    }

    // The length of the highest loads.
    pub fn highest(&self) -> u16
        ensures { result ≤ 66 }
    {
        self.highest.of(self.n)
    }

    // The length of the marks.
    pub fn marks(&self) -> u16
        ensures { result ≤ 66 }
    {
        self.lent.of(self.n)
    }

    // The length of the file.
    pub fn file(&self) -> u16
        ensures { result ≤ 536 }
    {
        16 + 8 * self.n
    }

    // The length of the writer's buffer.
    pub fn buffer(&self) -> u16
        ensures { result ≤ 537 }
    {
        self.lent.of(self.file())
    }

    // The length of the given plan.
    pub fn given(&self) -> u16
        ensures { result ≤ 66 }
    {
        match self.given {
            Given::Zeros(length) => length.of(self.n),
            Given::NoPlan => self.n,
            Given::Empty => 0,
        }
    }

    // The given plan and what follows it.
    pub fn bytes(&self) -> [u8; 67] {
        let mut bytes = [0; 67];
        if matches!(self.given, Given::NoPlan) {
            bytes[usize::from(self.n.saturating_sub(1))] = 4;
        }
        bytes
    }
}

impl Length {
    fn numbered(digit: u16) -> Length {
        match digit {
            0 => Length::Right,
            1 => Length::Longer,
            _ => Length::Shorter,
        }
    }

    fn of(self, right: u16) -> u16
        ensures { result ≤ right + 1 }
    {
        match self {
            Length::Right => right,
            Length::Longer => right.saturating_add(1),
            Length::Shorter => right.saturating_sub(1),
        }
    }
}

impl Given {
    fn numbered(digit: u16) -> Given {
        match digit {
            3 => Given::NoPlan,
            4 => Given::Empty,
            digit => Given::Zeros(Length::numbered(digit)),
        }
    }
}

impl Place {
    fn numbered(digit: u16) -> Option<Place> {
        match digit {
            0 => None,
            1 => Some(Place::First),
            2 => Some(Place::Last),
            _ => Some(Place::Middle),
        }
    }

    fn slot(self, n: u16) -> u16
        ensures { result ≤ n }
    {
        match self {
            Place::First => 0,
            Place::Last => n.saturating_sub(1),
            Place::Middle => n / 2,
        }
    }
}

// Where a digit stands for a number, it is read by one match: an enum would need a second one, from its cases to the
// same numbers.
fn slots(digit: u16) -> u16
    ensures { result ≤ 65 }
{
    match digit {
        0 => 64,
        1 => 0,
        2 => 1,
        3 => 12,
        4 => 13,
        _ => 65,
    }
}

// len is around n, h around len - 2.
fn shape(n: u16, len: u16, h: u16, settle: u16) -> Shape {
    let len = around(n, len);
    Shape {
        len,
        h: around(len.saturating_sub(2), h),
        settle,
    }
}

// The first is the one that the writer stores.
fn settle(digit: u16) -> u16 {
    match digit {
        0 => 1,
        1 => 0,
        2 => 2,
        3 => 8,
        4 => 9,
        5 => 10,
        6 => 257,
        _ => 65535,
    }
}

fn counts(n: u16, digit: u16) -> CountRange {
    CountRange {
        least: around(n, digit % 4),
        most: around(n, digit / 4),
    }
}

fn around(limit: u16, digit: u16) -> u16 {
    match digit {
        0 => 0,
        1 => limit,
        2 => limit.saturating_add(1),
        3 => 65535,
        4 => 1,
        _ => 2,
    }
}
