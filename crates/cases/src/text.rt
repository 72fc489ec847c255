// Numbers in a text.
ghost use Rattle.std.specs.Prelude.{◌≤◌};

use arrayvec::ArrayVec;

// What numbers are written in.
#[derive(Clone, Copy)]
pub enum Base {
    Decimal = 10,
    Hexadecimal = 16,
}

impl Base {
    fn number(self) -> u32
        ensures { (2 ≤ result) × (result ≤ 36) }
    {
        self as u32
    }
}

// The first N numbers of a text: each a run of digits, negative after a minus sign. All else is skipped.
pub fn numbers<const N: usize>(text: &[u8], base: Base) -> ArrayVec<i32, N> {
    let mut all = ArrayVec::new();
    let mut minus = false;
    for part in text.split_inclusive(|byte| digit(*byte, base).is_none()) {
        if let Some(size) = number(part, base) {
            let _ = all.try_push(signed(minus, size));
        }
        minus = part.ends_with(b"-");
    }
    all
}

// The number that the digits of a text make, or the largest of its type where that does not fit. `from_str_radix` would
// be no plainer: it wants the digits alone, as a `str`, and gives an error for too large a number as for no digits.
fn number(text: &[u8], base: Base) -> Option<u32> {
    text.iter()
        .filter_map(|byte| digit(*byte, base))
        .reduce(|size, digit| with_digit(size, base, digit))
}

fn with_digit(size: u32, base: Base, digit: u32) -> u32 {
    size.saturating_mul(base.number()).saturating_add(digit)
}

// The value of a digit. A capital letter is none.
fn digit(byte: u8, base: Base) -> Option<u32> {
    if byte.is_ascii_uppercase() {
        return None;
    }
    char::from(byte).to_digit(base.number())
}

// The number as a load, or the nearest load where it is none.
fn signed(minus: bool, size: u32) -> i32 {
    if minus {
        0i32.saturating_sub_unsigned(size)
    } else {
        0i32.saturating_add_unsigned(size)
    }
}
