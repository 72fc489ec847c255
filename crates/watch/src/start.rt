// The start of a watch.
ghost use Rattle.std.specs.Prelude.{◌≡◌};
ghost use Rattle.watch.specs.Start.{starting};

use crate::Watch;
use refusals::Refusal;
use settings::{LIMIT, check_shape};

impl Watch {
    // In the state that comes back no slot is taken yet. The settings are refused with 23 or 24, as for LIMIT slots.
    pub fn start(k: i32, len: u16, h: u16) -> Result<Watch, Refusal>
        ensures { result ≡ starting k len h }
    {
        let watch = Watch {
            k,
            len,
            h,
            taken: 0,
            windows: 0,
            room: 0,
            spare: 0,
        };
        check_shape(watch.shape(), LIMIT)?;
        Ok(watch)
    }
}
