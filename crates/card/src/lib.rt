// Form 1 files: the reader, and the look-up by slot number. specs/Reading.antt and specs/LookUp.antt say what comes
// back.
#![tactic(auto)]

ghost use Rattle.std.specs.Prelude.{◌≡◌};
ghost use Rattle.card.specs.Reading.{outcome_of, reading};

use crate::records::fill;
use form1::open;
use refusals::Refusal;
use settings::Settings;

mod lookup;
mod records;

pub use lookup::look_up;

// What the reader hands back besides the loads.
#[derive(Clone, Copy)]
pub struct Header {
    pub settings: Settings,
    pub n: usize,
}

// Gives the first refusal that applies, or the settings and n, as the file has them. Only in the latter case does it
// write: into the first n places of both slices.
pub fn read(file: &[u8], lowest: &mut [i32], highest: &mut [i32]) -> Result<Header, Refusal>
    ensures { outcome_of result lowest.new highest.new
        ≡ reading file.now lowest.old highest.old }
{
    let contents = open(file)?;
    let n = contents.n;
    if lowest.len() < n || highest.len() < n {
        return Err(Refusal::Lent);
    }
    fill(file, contents.start, n, lowest, highest);
    Ok(Header {
        settings: contents.settings,
        n,
    })
}
