// Loads at and around the threshold, zero and both ends of their type.
use crate::numbers::{Digits, next, pick};

const MIN: i32 = i32::MIN;

const MAX: i32 = i32::MAX;

// A row for each of seven thresholds, with loads in rising order: four at most the threshold, the last of which is the
// threshold, and four above it, the first of which is the next number. No load is above the last threshold, so its row
// has the threshold in their place.
const LOADS: [[i32; 8]; 7] = [
    [MIN, -2, -1, 0, 1, 2, 100, MAX],
    [MIN, -1, 0, 1, 2, 3, MAX - 1, MAX],
    [MIN, -100, -2, -1, 0, 1, 2, MAX],
    [MIN, MIN, MIN, MIN, MIN + 1, -1, 0, MAX],
    [MIN, MIN, MIN, MIN + 1, MIN + 2, 0, 1, MAX],
    [MIN, 0, MAX - 2, MAX - 1, MAX, MAX, MAX, MAX],
    [MIN, 0, MAX - 1, MAX, MAX, MAX, MAX, MAX],
];

// The places in a row of the threshold and of the next number.
pub const AT: usize = 3;

pub const ABOVE: usize = 4;

pub fn load(threshold: usize, place: usize) -> i32 {
    LOADS[threshold % 7][place % 8]
}

// The row of the threshold for a class string. The last row is picked only where each slot is under.
pub fn threshold(classes: Digits, seed: usize) -> usize {
    let last = if classes.0 == 0 { 6 } else { 5 };
    usize::from(pick(seed, last))
}

// The lowest and the highest loads of ranges whose classes are the digits of a class string: 0 under only, 1 over only,
// 2 open. The highest digit is most.
pub fn spread(threshold: usize, classes: Digits, most: u16, seed: usize) -> ([i32; 8], [i32; 8]) {
    let mut lowest = [0; 8];
    let mut highest = [0; 8];
    let mut left = classes;
    let mut random = seed;
    for (low, high) in lowest.iter_mut().zip(highest.iter_mut()) {
        let (a, b) = places(left.up_to(most), random);
        *low = load(threshold, a.min(b));
        *high = load(threshold, a.max(b));
        random = next(random);
    }
    (lowest, highest)
}

// Two places for a class, a digit that is read here and nowhere else: both of under loads, both of over loads, or one of
// each.
fn places(class: u16, seed: usize) -> (usize, usize) {
    let a = seed / 65536 % 4;
    let b = seed / 262144 % 4;
    match class {
        0 => (a, b),
        1 => (a + ABOVE, b + ABOVE),
        _ => (a, b + ABOVE),
    }
}
