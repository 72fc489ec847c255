// Turns the fields of a line into what the operations take.
use crate::text::{Base, numbers};
use arrayvec::ArrayVec;
use rule::Shape;
use settings::{CountRange, PLACES, Settings};

// The most numbers that are read of a first field.
const FIRST: usize = 8;

// The most bytes that are read of a file, and the most that are written.
pub const MANY: usize = 130;

// Field i of a line, counted from 0, or an empty text where there is none.
pub fn field(line: &[u8], i: usize) -> &[u8] {
    line.split(|byte| *byte == b';').nth(i).unwrap_or(&[])
}

// The loads of a field. Of these and of marks at most PLACES are read, one more than a plan may have slots.
pub fn loads(line: &[u8], i: usize) -> ArrayVec<i32, PLACES> {
    numbers(field(line, i), Base::Decimal)
}

pub fn marks(line: &[u8], i: usize) -> ArrayVec<u8, PLACES> {
    bytes(field(line, i), Base::Decimal)
}

// A mark 0 for each of n slots, of at most PLACES.
pub fn blank_marks(n: usize) -> ArrayVec<u8, PLACES> {
    let mut all = ArrayVec::from([0; PLACES]);
    all.truncate(n);
    all
}

// The first N numbers of a text as bytes, of at most MANY. 255 stands for any larger number.
pub fn bytes<const N: usize>(text: &[u8], base: Base) -> ArrayVec<u8, N> {
    let mut all = ArrayVec::new();
    for n in numbers::<MANY>(text, base).iter() {
        let _ = all.try_push(u8::try_from(n.unsigned_abs()).unwrap_or(u8::MAX));
    }
    all
}

// The numbers of the first field, with 0 for each that is not there.
pub fn first_numbers(line: &[u8]) -> [i32; FIRST] {
    let mut all = [0; FIRST];
    let given = numbers::<FIRST>(field(line, 0), Base::Decimal);
    all[..given.len()].copy_from_slice(&given);
    all
}

pub fn settings(line: &[u8]) -> Settings {
    let [k, len, h, settle, fewest, most, least, greatest] = first_numbers(line);
    Settings {
        k,
        shape: Shape {
            len: count(len),
            h: count(h),
            settle: count(settle),
        },
        windows: range(fewest, most),
        covered: range(least, greatest),
    }
}

fn range(least: i32, most: i32) -> CountRange {
    CountRange {
        least: count(least),
        most: count(most),
    }
}

// 65,535 stands for any larger number.
pub fn count(n: i32) -> u16 {
    u16::try_from(n.unsigned_abs()).unwrap_or(u16::MAX)
}
