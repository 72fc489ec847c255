// The trailer of a file, its last 16 bytes: its fields, and the refusals that the reader and the look-up share.
ghost use Rattle.std.specs.Prelude.{◌≡◌, ◌+◌, ◌-◌, ◌≤◌, ◌<◌, IfOk, length};
ghost use Rattle.refusals.specs.Answer.{refusal_of};
ghost use Rattle.refusals.specs.Table.{row};
ghost use Rattle.refusals.specs.declared.Refusal.TheVariants.{Size};
ghost use Rattle.form1.specs.Form1.{number_at, trailer, file_refusal};
ghost use Rattle.form1.specs.Form1.{distance as Form1·distance, slots as Form1·slots, settings as Form1·settings};
ghost use Rattle.form1.specs.Form1.{wrong_size, wrong_end, wrong_form, wrong_slots, wrong_distance, records_missing};

use crate::RECORD;
use crate::bytes::{pair_at, signed_at};
use refusals::Refusal;
use rule::Shape;
use settings::{CountRange, Settings};

// How many bytes the trailer has.
pub const TRAILER: usize = 16;

// Its last three bytes: the form, and the two that end every file.
pub(crate) const FORM: u8 = 1;

pub(crate) const END: [u8; 2] = [0x54, 0x43];

// The settle count of every file, as form 1 has no field for it.
pub const SETTLE: u16 = 1;

// The most bytes and the most slots that form 1 allows, its own whatever the planner's limit is.
const MOST_BYTES: usize = 4096;

const MOST_SLOTS: usize = 64;

// A file of a size that form 1 allows, so that it has a trailer.
#[derive(Clone, Copy)]
pub(crate) struct Trailer<'a> {
    file: &'a [u8],
    ghost long: { 16 ≤ length file.now },
    ghost short: { length file.now ≤ 4096 },
}

impl<'a> Trailer<'a> {
    // Refusal 11.
    #[tactic(auto, unfolding(refusals::specs::Table::row, crate::specs::Form1::wrong_size))]
    pub(crate) fn of(file: &'a [u8]) -> Result<Trailer<'a>, Refusal>
        ensures refused { refusal_of result ≡ row Size (wrong_size file.now) }
        ensures same { IfOk result (λ t. t.file.now ≡ file.now) }
    {
        if file.len() < TRAILER || file.len() > MOST_BYTES {
            return Err(Refusal::Size);
        }
        Ok(Trailer { file })
    }

    // Gives the first of the refusals 12 to 16 that applies, or says that the file passes.
    #[tactic(auto, using(crate::proofs::WholeFile::tests), unfolding(crate::specs::Form1::file_refusal))]
    pub(crate) fn check(self) -> Result<(), Refusal>
        ensures { refusal_of result ≡ file_refusal self.entry.file.now }
    {
        if self.wrong_end() {
            return Err(Refusal::End);
        }
        if self.wrong_form() {
            return Err(Refusal::Form);
        }
        if self.wrong_slots() {
            return Err(Refusal::Slots);
        }
        if self.wrong_distance() {
            return Err(Refusal::Distance);
        }
        if self.records_missing() {
            return Err(Refusal::Records);
        }
        Ok(())
    }

    // The byte at a place of the trailer.
    #[tactic(auto, using(crate::proofs::NumberAt::numbers))]
    fn byte(self, place: usize) -> u8
        requires { place < 16 }
        ensures { result ≡ number_at 1 (trailer self.entry.file.now + place) self.entry.file.now }
    {
        self.file[self.file.len() - TRAILER + place]
    }

    #[tactic(auto, unfolding(crate::specs::Form1::distance))]
    fn distance(self) -> usize
        ensures { result ≡ Form1·distance self.entry.file.now }
    {
        usize::from(pair_at(self.file, self.file.len() - TRAILER))
    }

    // Where the first record begins.
    pub(crate) fn start(self) -> usize
        requires { 16 + Form1·distance self.file.now ≤ length self.file.now }
        ensures { result ≡ trailer self.entry.file.now - Form1·distance self.entry.file.now }
    {
        let back = TRAILER + self.distance();
        self.file.len() - back
    }

    #[tactic(auto, unfolding(crate::specs::Form1::slots))]
    pub(crate) fn slots(self) -> usize
        ensures { (result ≡ Form1·slots self.entry.file.now) × (result < 256) }
    {
        usize::from(self.byte(2))
    }

    #[tactic(auto, unfolding(crate::specs::Form1::settings))]
    pub(crate) fn settings(self) -> Settings
        ensures { result ≡ Form1·settings self.entry.file.now }
    {
        Settings {
            k: signed_at(self.file, self.file.len() - TRAILER + 9),
            shape: Shape {
                len: u16::from(self.byte(3)),
                h: u16::from(self.byte(4)),
                settle: SETTLE,
            },
            windows: self.counts(5),
            covered: self.counts(7),
        }
    }

    // A count range: its least at a place of the trailer, its most at the next place.
    fn counts(self, place: usize) -> CountRange
        requires { place + 1 < 16 }
        ensures { result ≡ record {
          least = number_at 1 (trailer self.entry.file.now + place) self.entry.file.now;
          most = number_at 1 (trailer self.entry.file.now + (place + 1)) self.entry.file.now;
        } }
    {
        CountRange {
            least: u16::from(self.byte(place)),
            most: u16::from(self.byte(place + 1)),
        }
    }

    // A test for each of the refusals from 12 on.
    #[tactic(auto, unfolding(crate::specs::Form1::wrong_end))]
    fn wrong_end(self) -> bool
        ensures { result ≡ wrong_end self.entry.file.now }
    {
        self.byte(14) != END[0] || self.byte(15) != END[1]
    }

    #[tactic(auto, unfolding(crate::specs::Form1::wrong_form, crate::specs::Form1::form))]
    fn wrong_form(self) -> bool
        ensures { result ≡ wrong_form self.entry.file.now }
    {
        self.byte(13) != FORM
    }

    #[tactic(auto, unfolding(crate::specs::Form1::wrong_slots))]
    fn wrong_slots(self) -> bool
        ensures { result ≡ wrong_slots self.entry.file.now }
    {
        let n = self.slots();
        n == 0 || n > MOST_SLOTS
    }

    #[tactic(auto, unfolding(crate::specs::Form1::wrong_distance))]
    fn wrong_distance(self) -> bool
        ensures { result ≡ wrong_distance self.entry.file.now }
    {
        self.distance() != RECORD * self.slots()
    }

    #[tactic(auto, unfolding(crate::specs::Form1::records_missing))]
    fn records_missing(self) -> bool
        ensures { result ≡ records_missing self.entry.file.now }
    {
        self.file.len() < TRAILER + RECORD * self.slots()
    }
}
