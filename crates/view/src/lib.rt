// The view, as document 01 calls it: held over a file's bytes, for look-ups by slot number.
#![tactic(auto)]

ghost use Rattle.std.specs.Prelude.{◌≡◌};
ghost use Rattle.card.specs.LookUp.{looking};

use card::look_up;
use refusals::Refusal;
use rule::Range;

#[derive(Clone, Copy)]
pub struct View<'a> {
    pub file: &'a [u8],
}

pub fn view_of<'a>(file: &'a [u8]) -> View<'a>
    ensures { result.file ≡ file.entry }
{
    View { file }
}

impl<'a> View<'a> {
    // What look_up answers for the bytes in view.
    pub fn look_up(self, slot: usize) -> Result<Range, Refusal>
        ensures { result ≡ looking slot self.entry.file.now }
    {
        look_up(self.file, slot)
    }
}

// What look_up answers, through a view made for one look-up; it stays beside the method, as it is on the page of demands.
pub fn viewed(file: &[u8], slot: usize) -> Result<Range, Refusal>
    ensures { result ≡ looking slot file.now }
{
    view_of(file).look_up(slot)
}
