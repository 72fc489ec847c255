// Slots by their classes, with what rows of least counts are made from.
ghost use Rattle.std.specs.Prelude.{◌≡◌, length, take, ◌≤◌};
ghost use Rattle.rule.specs.ClassCodes.{decode_all};
ghost use Rattle.settings.specs.Refusals.{limit};
ghost use Rattle.fast.specs.Rows.{Reaches, LacksFrom};

use crate::ends::lacks_of;
use crate::reach::reaches;
use settings::{LIMIT, PLACES, Settings};

// `reach` and `lacks` have at each slot's place how many slots a window can cover from there on, and how many of the
// slots owed are lacking from there on. `least` and `filter` have slots of their own with other facts: one type for all
// would be public, and no plainer.
#[derive(Clone, Copy)]
pub struct Slots<'a> {
    pub settings: Settings,
    pub classes: &'a [u8],
    pub reach: [u16; PLACES],
    pub lacks: [u16; PLACES],
    ghost few: { length classes.now ≤ limit },
    ghost reaches: { Reaches settings.shape.len settings.shape.h (decode_all classes.now) reach },
    ghost lacking: { LacksFrom settings.shape.settle (decode_all classes.now) lacks },
}

impl<'a> Slots<'a> {
    // The first LIMIT slots, or all of them if they are fewer.
    pub(crate) fn first(settings: Settings, classes: &'a [u8]) -> Slots<'a>
        ensures settings { result.settings ≡ settings }
        ensures classes { result.classes.now ≡ take limit classes.now }
    {
        let n = classes.len().min(LIMIT);
        Slots::of(settings, &classes[..n])
    }

    // `lacks_of`, `reaches` and `extend` ask for as few classes too, since `Slots` is made from what they give.
    pub(crate) fn of(settings: Settings, classes: &'a [u8]) -> Slots<'a>
        requires { length classes.now ≤ limit }
        ensures settings { result.settings ≡ settings }
        ensures classes { result.classes.now ≡ classes.now }
    {
        Slots {
            settings,
            classes,
            reach: reaches(settings.shape.len, settings.shape.h, classes),
            lacks: lacks_of(settings.shape.settle, classes),
        }
    }
}
