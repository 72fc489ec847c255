// A fixed sequence of numbers, and the digits of a number.
ghost use Rattle.std.specs.Prelude.{◌≤◌};

// The number that follows x in the sequence, below 2^31. Digits are to be taken from its upper half.
pub fn next(x: usize) -> usize {
    (x % 2147483648 * 1103515245 + 12345) % 2147483648
}

// What is left of a number whose digits are taken off, the lowest first. Each has a base of its own.
#[derive(Clone, Copy)]
pub struct Digits(pub usize);

impl Digits {
    // Takes a digit off, from 0 to most.
    pub fn up_to(&mut self, most: u16) -> u16
        ensures { result ≤ most }
    {
        let base = usize::from(most) + 1;
        let digit = self.0 % base;
        self.0 /= base;
        digit as u16
    }
}

// A number from 0 to most.
pub fn pick(seed: usize, most: u16) -> u16 {
    Digits(seed / 65536).up_to(most)
}
