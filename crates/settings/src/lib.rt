// The settings of a request, and the refusals of lengths and settings, 21 to 27: their table is in specs/Refusals.antt.
#![tactic(auto)]

ghost use Rattle.std.specs.Prelude.{◌≡◌};
ghost use Rattle.refusals.specs.Answer.{refusal_of};
ghost use Rattle.settings.specs.Refusals.{refusal, lengths_refusal, shape_refusal, settings_refusal};
ghost use Rattle.settings.specs.Refusals.{wrong_slots, differs, wrong_length, wrong_bridges};
ghost use Rattle.settings.specs.Refusals.{wrong_counts, wrong_settle};

use refusals::Refusal;
use rule::Shape;

// The most slots of a plan.
pub const LIMIT: usize = 64;

// The largest settle count.
pub const MAX_SETTLE: u16 = 8;

// The number of places before, between and after that many slots.
pub const PLACES: usize = LIMIT + 1;

// A range of counts, both ends included.
#[derive(Clone, Copy)]
pub struct CountRange {
    pub least: u16,
    pub most: u16,
}

// What a request has besides its loads: the threshold (k in document 01), the shape of windows, and the
// ranges of the window count and the covered count.
#[derive(Clone, Copy)]
pub struct Settings {
    pub k: i32,
    pub shape: Shape,
    pub windows: CountRange,
    pub covered: CountRange,
}

// Checks the lengths, then the settings.
#[tactic(auto, unfolding(crate::specs::Refusals::refusal, refusals::specs::Table::first))]
pub fn check(settings: Settings, n: usize, different: bool) -> Result<(), Refusal>
    ensures { refusal_of result ≡ refusal n different settings }
{
    check_lengths(n, different)?;
    check_settings(settings, n)
}

// Refusals 21 and 22, for a first slice of n entries; `different` says whether another slice has a different length.
#[tactic(auto, unfolding(crate::specs::Refusals::lengths_refusal, refusals::specs::Table::first, refusals::specs::Table::row))]
pub fn check_lengths(n: usize, different: bool) -> Result<(), Refusal>
    ensures { refusal_of result ≡ lengths_refusal n different }
{
    if wrong_slots(n) {
        return Err(Refusal::FirstLength);
    }
    if different {
        return Err(Refusal::OtherLength);
    }
    Ok(())
}

// Refusals 23 to 27, for n slots.
#[tactic(auto, unfolding(crate::specs::Refusals::settings_refusal, refusals::specs::Table::first, refusals::specs::Table::row))]
pub fn check_settings(settings: Settings, n: usize) -> Result<(), Refusal>
    ensures { refusal_of result ≡ settings_refusal n settings }
{
    check_shape(settings.shape, n)?;
    if wrong_counts(settings.windows, n) {
        return Err(Refusal::WindowCounts);
    }
    if wrong_counts(settings.covered, n) {
        return Err(Refusal::CoveredCounts);
    }
    if wrong_settle(settings.shape.settle) {
        return Err(Refusal::SettleCount);
    }
    Ok(())
}

// Refusals 23 and 24.
#[tactic(auto, unfolding(crate::specs::Refusals::shape_refusal, refusals::specs::Table::first, refusals::specs::Table::row))]
pub fn check_shape(shape: Shape, n: usize) -> Result<(), Refusal>
    ensures { refusal_of result ≡ shape_refusal n shape }
{
    if wrong_length(shape, n) {
        return Err(Refusal::WindowLength);
    }
    if wrong_bridges(shape) {
        return Err(Refusal::Bridges);
    }
    Ok(())
}

// Whether another slice has a different length from the first, which has n entries.
#[tactic(auto, unfolding(crate::specs::Refusals::differs))]
pub fn differ(n: usize, other: usize) -> bool
    ensures { result ≡ differs n other }
{
    other != n
}

// The tests of the table's other rows, in the order of their numbers.
#[tactic(auto, unfolding(crate::specs::Refusals::wrong_slots))]
fn wrong_slots(n: usize) -> bool
    ensures { result ≡ wrong_slots n }
{
    n == 0 || n > LIMIT
}

#[tactic(auto, unfolding(crate::specs::Refusals::wrong_length))]
fn wrong_length(shape: Shape, n: usize) -> bool
    ensures { result ≡ wrong_length shape n }
{
    shape.len == 0 || usize::from(shape.len) > n
}

#[tactic(auto, unfolding(crate::specs::Refusals::wrong_bridges))]
fn wrong_bridges(shape: Shape) -> bool
    ensures { result ≡ wrong_bridges shape }
{
    shape.h > 0 && usize::from(shape.h) + 1 >= usize::from(shape.len)
}

#[tactic(auto, unfolding(crate::specs::Refusals::wrong_counts))]
fn wrong_counts(range: CountRange, n: usize) -> bool
    ensures { result ≡ wrong_counts range n }
{
    range.least > range.most || usize::from(range.most) > n
}

#[tactic(auto, unfolding(crate::specs::Refusals::wrong_settle))]
fn wrong_settle(settle: u16) -> bool
    ensures { result ≡ wrong_settle settle }
{
    settle > MAX_SETTLE
}
