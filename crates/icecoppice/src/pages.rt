// The plans of a request, page by page, for C.
ghost use Rattle.std.specs.Prelude.{◌≡◌};
ghost use Rattle.paging.specs.Paging.{call_of};
ghost use Rattle.icecoppice.specs.Numbers.{settings_of};
ghost use Rattle.icecoppice.specs.PageNumbers.{TurnsInNumbers, page_numbers};

use crate::gather;
use paging::{Page, next_plan};
use refusals::Refusal;

// What a call gives, in numbers: the code is 0 for a next plan, 1 for no further one, else the refusal's number, for 31
// also with the slot.
#[repr(C)]
#[derive(Clone, Copy)]
pub struct PageNumbers {
    pub code: u16,
    pub slot: usize,
}

pub fn icecoppice_next_plan(
    k: i32,
    len: u16,
    h: u16,
    settle: u16,
    windows_least: u16,
    windows_most: u16,
    covered_least: u16,
    covered_most: u16,
    lowest: &[i32],
    highest: &[i32],
    given: &[u8],
    marks: &mut [u8],
) -> PageNumbers
    ensures { TurnsInNumbers
        (call_of (settings_of k len h settle windows_least windows_most covered_least covered_most)
        lowest.now highest.now given.now marks.old)
        result marks.new }
{
    let settings = gather(
        k,
        len,
        h,
        settle,
        windows_least,
        windows_most,
        covered_least,
        covered_most,
    );
    let page = next_plan(settings, lowest, highest, given, marks);
    PageNumbers::from(page)
}

impl From<Result<Page, Refusal>> for PageNumbers {
    ghost from_gives = { λ page numbers. numbers ≡ page_numbers page };

    fn from(page: Result<Page, Refusal>) -> PageNumbers {
        match page {
            Err(refusal) => PageNumbers {
                code: refusal.number(),
                slot: refusal.slot(),
            },
            Ok(Page::Next) => PageNumbers { code: 0, slot: 0 },
            Ok(Page::End) => PageNumbers { code: 1, slot: 0 },
        }
    }
}
