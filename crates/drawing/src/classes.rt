// What each slot can be, as one byte per slot.
ghost use Rattle.std.specs.Prelude.{◌≡◌};
ghost use Rattle.drawing.specs.Codes.{codes_of};
ghost use Rattle.requests.specs.Solution.{classes_of};

use rule::{Range, UNDER, class_of};
use settings::LIMIT;

// The classes of the first LIMIT slots. Where the slices differ in length, the slots end with the shorter.
pub fn classify(k: i32, lowest: &[i32], highest: &[i32]) -> [u8; LIMIT]
    ensures { result ≡ codes_of (classes_of k lowest.now highest.now) }
{
    let mut codes = [UNDER; LIMIT];
    for (i, (&lowest, &highest)) in lowest.iter().zip(highest).take(LIMIT).enumerate() {
        codes[i] = class_of(k, Range { lowest, highest });
    }
    codes
}
