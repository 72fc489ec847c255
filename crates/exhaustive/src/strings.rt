// Strings of marks and of bytes by number, in the order of document 02's T-03: they are compared slot by slot from slot
// 0, smaller byte first.
ghost use Rattle.std.specs.Prelude.{◌≤◌, ◌<◌, ◌^◌};

use crate::samples::Request;

const MARKS: [u8; 4] = [0, 1, 2, 3];

// The bytes that are tried as marks.
const BYTES: [u8; 6] = [0, 1, 2, 3, 4, 255];

// A string of n bytes, which are the last of eight. With an `ArrayVec<u8, 8>` in its place the whole run takes 30 percent
// longer (30.6 s for 23.4 s): much of it is the making of strings, whose loop then has no fixed number of turns.
#[derive(Clone, Copy)]
pub struct Text {
    eight: [u8; 8],
    n: u16,
    ghost small: { n ≤ 8 },
}

impl Text {
    pub fn empty() -> Text {
        Text {
            eight: [0; 8],
            n: 0,
        }
    }

    pub fn bytes(&self) -> &[u8] {
        &self.eight[8 - usize::from(self.n)..]
    }
}

impl Request {
    // How many strings of marks there are.
    pub fn mark_strings(&self) -> usize
        ensures { result ≤ 65536 }
    {
        self.strings(MARKS)
    }

    pub fn marks(&self, number: usize) -> Text {
        self.string(MARKS, number)
    }

    // How many strings of the bytes that are tried as marks there are.
    pub fn byte_strings(&self) -> usize
        ensures { result ≤ 6 ^ self.now.n }
    {
        self.strings(BYTES)
    }

    pub fn tried(&self, number: usize) -> Text {
        self.string(BYTES, number)
    }

    // None wraps for up to 8 slots.
    fn strings<const M: usize>(&self, symbols: [u8; M]) -> usize
        ensures { result ≤ M ^ self.now.n }
    {
        symbols.len().wrapping_pow(u32::from(self.n))
    }

    // The symbols that the lowest digits of a number in base M stand for.
    fn string<const M: usize>(&self, symbols: [u8; M], number: usize) -> Text
        requires { 0 < M }
    {
        let mut left = number;
        let mut eight = [0; 8];
        for byte in eight.iter_mut().rev() {
            *byte = symbols[left % M];
            left /= M;
        }
        Text { eight, n: self.n }
    }
}
