// Where the next plan parts from the given marks: the last slot at which a larger mark still has a plan. That is
// so if the first plan that begins with this mark, drawn, is one.
ghost use Rattle.std.specs.Prelude.{false, ◌≡◌, ℕ, ◌+◌, ◌≤◌, ◌<◌, length, take, MatchOption};
ghost use Rattle.requests.specs.Solution.{classes_of, completed};
ghost use Rattle.paging.specs.Paging.{page_limit};
ghost use Rattle.paging.specs.Parting.{Ready, is_plan, above, partings, NonePartsFrom, FirstParting, LastParting};
ghost use Rattle.paging.specs.Parting.{parts, parted};

use crate::PAGE_LIMIT;
use drawing::complete;
use settings::Settings;

// Where marks part from the given ones: a slot, and the mark that they have there.
#[derive(Clone, Copy)]
pub struct Parting {
    pub slot: usize,
    pub mark: u8,
}

// A request that passes its checks, with the bytes that stand for its classes, and the marks that are given.
#[derive(Clone, Copy)]
pub(crate) struct Search<'a> {
    pub settings: Settings,
    pub lowest: &'a [i32],
    pub highest: &'a [i32],
    pub codes: &'a [u8],
    pub given: &'a [u8],
    ghost ready: { Ready settings lowest.now highest.now codes.now },
    ghost as_long: { (length given.now ≡ 0 → ⊥) → length given.now ≡ length lowest.now },
}

impl Search<'_> {
    // The last slot at which a plan parts from the given marks, and the smallest mark with which one does.
    pub(crate) fn last_parting(&self) -> Option<Parting>
        ensures { MatchOption result
            (NonePartsFrom (parts self.now.settings self.now.lowest.now self.now.highest.now self.now.given.now)
            0 (partings (length self.now.lowest.now) (length self.now.given.now)))
            (λ at. LastParting
            (parts self.now.settings self.now.lowest.now self.now.highest.now self.now.given.now)
            (partings (length self.now.lowest.now) (length self.now.given.now)) at.slot at.mark) }
    {
        let slots = self.lowest.len().min(self.given.len() + 1);
        for slot in (0..slots).rev() {
            if let Some(mark) = self.parting_mark(slot) {
                return Some(Parting { slot, mark });
            }
        }
        None
    }

    // The smallest mark with which a plan parts at a slot.
    fn parting_mark(&self, slot: usize) -> Option<u8>
        requires { slot < partings (length self.now.lowest.now) (length self.now.given.now) }
        ensures { MatchOption result
            ((m : ℕ) → m < 4 → parts self.now.settings self.now.lowest.now self.now.highest.now
            self.now.given.now slot m ≡ false)
            (FirstParting (parts self.now.settings self.now.lowest.now self.now.highest.now
            self.now.given.now slot)) }
    {
        (0..4).find(|mark| self.parts(Parting { slot, mark: *mark }))
    }

    // Whether a plan after the given marks parts from them there.
    #[tactic(auto, unfolding(crate::specs::Parting::parts))]
    fn parts(&self, at: Parting) -> bool
        requires { at.slot < partings (length self.now.lowest.now) (length self.now.given.now) }
        ensures { result ≡ parts self.now.settings self.now.lowest.now self.now.highest.now
            self.now.given.now at.slot at.mark }
    {
        if !self.is_above(at) {
            return false;
        }
        let front = parted(self.given, at);
        self.begins_plan(&front[..at.slot + 1])
    }

    // Whether the mark comes after what is given at its slot.
    #[tactic(auto, unfolding(crate::specs::Parting::above))]
    fn is_above(&self, at: Parting) -> bool
        ensures { result ≡ above self.now.given.now at.slot at.mark }
    {
        self.given.get(at.slot).is_none_or(|given| *given < at.mark)
    }

    // Whether what is drawn for the front is a plan: if any plan begins with it, this one is.
    fn begins_plan(&self, front: &[u8]) -> bool
        ensures { result ≡ is_plan self.now.settings self.now.lowest.now self.now.highest.now
            (completed self.now.settings
            (classes_of self.now.settings.k self.now.lowest.now self.now.highest.now) front.now) }
    {
        // The first of an array of the most, since `complete` writes into a lent slice, and there is no heap.
        let mut memory = [0; PAGE_LIMIT];
        let marks = &mut memory[..self.lowest.len()];
        complete(self.settings, self.codes, front, marks);
        self.is_plan(marks)
    }
}

// The given marks as far as the slot, with the mark there; what comes later plays no part. A list of fixed capacity would
// be no plainer than the array: what puts into one has an error that cannot come here.
pub(crate) fn parted(given: &[u8], at: Parting) -> [u8; PAGE_LIMIT]
    requires { (at.slot ≤ length given.now) × (at.slot < page_limit) }
    ensures { (length result ≡ page_limit)
        × (take (at.slot + 1) result ≡ parted given.now at.slot at.mark) }
{
    let mut front = [0; PAGE_LIMIT];
    front[..at.slot].copy_from_slice(&given[..at.slot]);
    front[at.slot] = at.mark;
    front
}
