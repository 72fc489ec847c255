// A text in the making, in a lent buffer.
ghost use Rattle.std.specs.Prelude.{[], ◌∷◌, ◌++◌};
ghost use Rattle.listing.specs.Adds.{Adds};

use buffer::put_bytes;
use itoa::{Buffer, Integer};

// What is written next goes to this place of the buffer. No `fmt::Write`, tried: the promise of a `write!` is for where
// it gave `Ok`, and that it does, with a writer that takes what fits and never fails, no clause says.
#[derive(Drop)]
pub(crate) struct Text<'a> {
    pub(crate) out: &'a mut [u8],
    pub(crate) place: usize,
}

impl Text<'_> {
    // A number and the byte that ends its field.
    pub(crate) fn number<I: Integer>(&mut self, n: I, end: u8)
        ensures { Adds (I.text n ++ (end ∷ [])) self.old self.new }
    {
        let mut digits = Buffer::new();
        self.word(digits.format(n).as_bytes(), end)
    }

    // A word and the byte that ends its field.
    pub(crate) fn word(&mut self, word: &[u8], end: u8)
        ensures { Adds (word.now ++ (end ∷ [])) self.old self.new }
    {
        self.bytes(word);
        self.bytes(&[end])
    }

    fn bytes(&mut self, bytes: &[u8])
        ensures { Adds bytes.now self.old self.new }
    {
        self.place = put_bytes(bytes, self.out, self.place);
    }
}
