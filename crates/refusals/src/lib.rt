// Why something is refused. Document 01's numbers are in specs/Numbers.antt.
#![tactic(auto)]

ghost use Rattle.std.specs.Prelude.{◌≡◌, Some};
ghost use Rattle.refusals.specs.Numbers.{number as Numbers·number, slot as Numbers·slot};
ghost use Rattle.refusals.specs.Shown.{shown};

use std::error::Error;
use std::fmt;

// Every refusal, by its number: of a file on the card (11 to 17, then 19), of the writer's buffer (18), of lengths and
// settings (21 to 27), of settings that form 1 cannot hold (28), of slots (31, which carries the first slot whose
// lowest load is above its highest), of a step of the watch (32, then 33), of the plans of a request as they are paged
// through (34, then 35).
#[derive(Clone, Copy, Debug, PartialEq, Eq)]
pub enum Refusal {
    Size,
    End,
    Form,
    Slots,
    Distance,
    Records,
    Lent,
    Buffer,
    Slot,
    FirstLength,
    OtherLength,
    WindowLength,
    Bridges,
    WindowCounts,
    CoveredCounts,
    SettleCount,
    StoredSettle,
    Crossed(usize),
    Unreached,
    Full,
    PagedSlots,
    GivenPlan,
}

impl Refusal {
    // Document 01's number, which C reads.
    pub fn number(self) -> u16
        ensures { result ≡ Numbers·number self }
    {
        match self {
            Refusal::Size => 11,
            Refusal::End => 12,
            Refusal::Form => 13,
            Refusal::Slots => 14,
            Refusal::Distance => 15,
            Refusal::Records => 16,
            Refusal::Lent => 17,
            Refusal::Buffer => 18,
            Refusal::Slot => 19,
            Refusal::FirstLength => 21,
            Refusal::OtherLength => 22,
            Refusal::WindowLength => 23,
            Refusal::Bridges => 24,
            Refusal::WindowCounts => 25,
            Refusal::CoveredCounts => 26,
            Refusal::SettleCount => 27,
            Refusal::StoredSettle => 28,
            Refusal::Crossed(_) => 31,
            Refusal::Unreached => 32,
            Refusal::Full => 33,
            Refusal::PagedSlots => 34,
            Refusal::GivenPlan => 35,
        }
    }

    // The slot that a refusal carries, 0 where it carries none, as C reads it.
    pub fn slot(self) -> usize
        ensures { result ≡ Numbers·slot self }
    {
        match self {
            Refusal::Crossed(slot) => slot,
            _ => 0,
        }
    }
}

// Its number, and the slot of 31.
impl fmt::Display for Refusal {
    ghost output = { λ r. Some (shown r) };

    fn fmt<W: fmt::Write>(&self, f: &mut fmt::Formatter<W>) -> fmt::Result {
        match self {
            Refusal::Crossed(slot) => write!(f, "refused {} slot {slot}", self.number()),
            _ => write!(f, "refused {}", self.number()),
        }
    }
}

impl Error for Refusal {}
