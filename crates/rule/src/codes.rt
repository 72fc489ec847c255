// What a slot can be, as a byte.
ghost use Rattle.std.specs.Prelude.{◌≡◌};
ghost use Rattle.rule.specs.Ranges.{class_of};
ghost use Rattle.rule.specs.ClassCodes.{code};

use crate::{Range, over};

// A slot can be under only, over only, or either, in which case it is open. Any other byte counts as open (`decode`). They
// are bytes and no enum, since `least_counts`, `row_after`, `draw` and `complete` promise what they give for every byte.
pub const UNDER: u8 = 0;

pub const OVER: u8 = 1;

pub const EITHER: u8 = 2;

// The class of a slot's range.
#[tactic(auto, unfolding(crate::specs::Ranges::class_of))]
pub fn class_of(k: i32, range: Range) -> u8
    ensures { result ≡ code (class_of k range) }
{
    if over(k, range.lowest) {
        return OVER;
    }
    if over(k, range.highest) {
        return EITHER;
    }
    UNDER
}
