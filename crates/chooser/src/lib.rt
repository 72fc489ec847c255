// The chooser, as document 01 calls it: the better of two finished plans.
#![tactic(auto)]

ghost use Rattle.std.specs.Prelude.{◌≡◌};
ghost use Rattle.chooser.specs.Choice.{Chosen, choice, fewer as Choice·fewer};

use judge::{Counts, judge};
use refusals::Refusal;
use settings::Settings;

// Which of two plans is chosen, if any. No Option: `choice`, `HandsBack` and the theorem `Chooses` (specs/Choice.antt)
// speak of these three.
#[derive(Clone, Copy)]
pub enum Choice {
    First,
    Second,
    Neither,
}

// Hands back the better of two lent plans, as that very slice, or the empty part at the start of the first where the
// judge says yes to neither or refuses one.
pub fn choose<'a>(settings: Settings, loads: &[i32], first: &'a [u8], second: &'a [u8]) -> &'a [u8]
    ensures { Chosen settings loads.now first.entry second.entry result }
{
    let one = judge(settings, loads, first);
    let two = judge(settings, loads, second);
    let better = prefer(one, two);
    match better {
        Choice::First => first,
        Choice::Second => second,
        Choice::Neither => &first[..0],
    }
}

// A plan that the judge says yes to is better than one that it says no to; of two that it says yes to, `fewer` decides.
fn prefer(one: Result<Option<Counts>, Refusal>, two: Result<Option<Counts>, Refusal>) -> Choice
    ensures { result ≡ choice one two }
{
    match (one, two) {
        (Ok(Some(a)), Ok(Some(b))) => fewer(a, b),
        (Ok(Some(_)), Ok(None)) => Choice::First,
        (Ok(None), Ok(Some(_))) => Choice::Second,
        _ => Choice::Neither,
    }
}

// The plan with fewer windows, then fewer covered slots, then the first.
#[tactic(auto, unfolding(crate::specs::Choice::fewer))]
fn fewer(a: Counts, b: Counts) -> Choice
    ensures { result ≡ Choice·fewer a.windows a.covered b.windows b.covered }
{
    if b < a { Choice::Second } else { Choice::First }
}
