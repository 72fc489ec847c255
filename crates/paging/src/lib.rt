// The plans of a request, page by page: the next plan after a given one (document 02, T-05). What is promised is in
// specs/Paging.antt, and what follows for all pages in specs/Pages.antt.
#![tactic(auto)]

ghost use Rattle.std.specs.Prelude.{◌≡◌};
ghost use Rattle.refusals.specs.Answer.{gives, refusal_of};
ghost use Rattle.paging.specs.Paging.{call_of, checks_refusal, marks_differ, too_many_slots, Accepted, Turns};

use crate::parting::{Search, parted};
use checks::check_request;
use drawing::{classify, complete};
use refusals::Refusal;
use settings::{Settings, check_lengths, differ};

mod parting;
mod plans;

// The most slots of a request whose plans are paged through.
pub const PAGE_LIMIT: usize = 12;

// What a call gives that is not refused: the next plan was written, or there is no further one.
#[derive(Clone, Copy, Debug, PartialEq, Eq)]
pub enum Page {
    Next,
    End,
}

// Gives the first refusal that applies, or the next plan after the given one, or that there is no further
// one; where no marks are given, the first plan is next. Only a next plan is written, into `marks`.
pub fn next_plan(
    settings: Settings,
    lowest: &[i32],
    highest: &[i32],
    given: &[u8],
    marks: &mut [u8],
) -> Result<Page, Refusal>
    ensures { Turns (call_of settings lowest.now highest.now given.now marks.old) result marks.new }
{
    check_call(settings, lowest, highest, given.len(), marks.len())?;
    let codes = classify(settings.k, lowest, highest);
    let search = Search {
        settings,
        lowest,
        highest,
        codes: &codes[..lowest.len()],
        given,
    };
    if search.no_plan_given() {
        return Err(Refusal::GivenPlan);
    }
    Ok(turn(&search, marks))
}

// Every check but that of the given plan, of which it takes the length only. Settings and loads stand apart, as in
// `next_plan`, whose signature is fixed: `Search` holds what has passed.
fn check_call(
    settings: Settings,
    lowest: &[i32],
    highest: &[i32],
    given: usize,
    marks: usize,
) -> Result<(), Refusal>
    ensures { refusal_of result ≡ checks_refusal settings lowest.now highest.now given marks }
{
    let n = lowest.len();
    let different = marks_differ(n, given, marks);
    check_lengths(n, differ(n, highest.len()) | different)?;
    if too_many_slots(n) {
        return Err(Refusal::PagedSlots);
    }
    check_request(settings, lowest, highest, different)
}

#[tactic(auto, unfolding(crate::specs::Paging::marks_differ))]
fn marks_differ(n: usize, given: usize, marks: usize) -> bool
    ensures { result ≡ marks_differ n given marks }
{
    given != 0 && differ(n, given) || differ(n, marks)
}

#[tactic(auto, unfolding(crate::specs::Paging::too_many_slots))]
fn too_many_slots(n: usize) -> bool
    ensures { result ≡ too_many_slots n }
{
    n > PAGE_LIMIT
}

// The next plan for a call that is not refused.
fn turn(search: &Search, marks: &mut [u8]) -> Page
    requires { Accepted (call_of search.now.settings search.now.lowest.now search.now.highest.now
        search.now.given.now marks.old) }
    ensures { Turns (call_of search.now.settings search.now.lowest.now search.now.highest.now
        search.now.given.now marks.old) (gives result) marks.new }
{
    let Some(at) = search.last_parting() else {
        return Page::End;
    };
    let front = parted(search.given, at);
    complete(search.settings, search.codes, &front[..at.slot + 1], marks);
    Page::Next
}
