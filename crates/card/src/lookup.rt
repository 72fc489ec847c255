// One record, by its slot number.
ghost use Rattle.std.specs.Prelude.{◌≡◌};
ghost use Rattle.card.specs.LookUp.{looking};

use form1::{RECORD, open, range_at};
use refusals::Refusal;
use rule::Range;

// Gives the first refusal that applies, or the load range of the slot.
pub fn look_up(file: &[u8], slot: usize) -> Result<Range, Refusal>
    ensures { result ≡ looking slot file.now }
{
    let contents = open(file)?;
    if contents.n <= slot {
        return Err(Refusal::Slot);
    }
    Ok(range_at(file, contents.start + RECORD * slot))
}
