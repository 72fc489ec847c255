// Form 1, the file on the card: whether a file has this form, what its trailer says, and the record at a place; and a
// record and a trailer put at a place. specs/Form1.antt and specs/Layout.antt define the form, specs/Opening.antt what
// comes back.
#![tactic(auto)]

ghost use Rattle.std.specs.Prelude.{◌≡◌};
ghost use Rattle.form1.specs.Opening.{opening, range_at};

use crate::bytes::signed_at;
use crate::trailer::Trailer;
use refusals::Refusal;
use rule::Range;
use settings::Settings;

mod bytes;
mod fields;
mod trailer;

pub use fields::{put_range, put_trailer};
pub use trailer::{SETTLE, TRAILER};

// How many bytes a record has.
pub const RECORD: usize = 8;

// What the trailer says; start is the place of the first record.
#[derive(Clone, Copy)]
pub struct Contents {
    pub settings: Settings,
    pub n: usize,
    pub start: usize,
}

// Gives the first of the refusals 11 to 16 that applies, or what the trailer says.
pub fn open(file: &[u8]) -> Result<Contents, Refusal>
    ensures { result ≡ opening file.now }
{
    let trailer = Trailer::of(file)?;
    trailer.check()?;
    Ok(Contents {
        settings: trailer.settings(),
        n: trailer.slots(),
        start: trailer.start(),
    })
}

// Gives the record that stands at a place; 0 and 0 where the file has no 8 bytes there, and no Option, as it is promised
// (`range_at` in specs/Opening.antt).
#[tactic(auto, unfolding(crate::specs::Opening::range_at))]
pub fn range_at(file: &[u8], place: usize) -> Range
    ensures { result ≡ range_at place file.now }
{
    if file.len() < RECORD || file.len() - RECORD < place {
        return Range {
            lowest: 0,
            highest: 0,
        };
    }
    Range {
        lowest: signed_at(file, place),
        highest: signed_at(file, place + 4),
    }
}
