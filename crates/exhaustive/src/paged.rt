// Compares paging with the search. Every string of bytes is given once, and so is the empty slice.
ghost use Rattle.std.specs.Prelude.{◌≤◌};

use crate::answers::UNTOUCHED;
use crate::counts::Tally;
use crate::samples::{Request, Sample};
use crate::search::is_plan;
use crate::strings::Text;
use paging::{Page, next_plan};
use refusals::Refusal;

// The answer, and what the lent slice holds then.
#[derive(Clone, Copy, PartialEq, Eq)]
struct Turned {
    answer: Result<Page, Refusal>,
    marks: [u8; 8],
}

// Goes through the strings of n bytes in the order of document 02's T-03. The next plan after the empty slice, and
// after each string that is a plan, is the next string that is one, if there is any. Every other string is refused.
pub fn compare(tally: &mut Tally, sample: &Sample) {
    let request = sample.request();
    let mut last = Text::empty();
    for number in 0..strings(&request) {
        let string = string(&request, number);
        if is_plan(&request, string.bytes()) {
            let turned = turn(&request, last.bytes());
            let agrees = turned.answer == Ok(Page::Next)
                && turned.marks.starts_with(string.bytes());
            tally.add(true, agrees);
            last = string;
        } else {
            let refused = unaltered(Err(Refusal::GivenPlan));
            tally.add(false, turn(&request, string.bytes()) == refused);
        }
    }
    tally.add(
        false,
        turn(&request, last.bytes()) == unaltered(Ok(Page::End)),
    );
}

// Strings of up to 3 slots are of the bytes that the judge is tried on, longer ones of marks.
fn strings(request: &Request) -> usize
    ensures { result ≤ 65536 }
{
    if request.n > 3 {
        return request.mark_strings();
    }
    request.byte_strings()
}

fn string(request: &Request, number: usize) -> Text {
    if request.n > 3 {
        return request.marks(number);
    }
    request.tried(number)
}

// Asks for the next plan after a given string, or after the empty slice.
fn turn(request: &Request, given: &[u8]) -> Turned {
    let n = usize::from(request.n);
    let mut marks = [UNTOUCHED; 8];
    let answer = next_plan(
        request.settings,
        request.lowest(),
        request.highest(),
        given,
        &mut marks[..n],
    );
    Turned { answer, marks }
}

fn unaltered(answer: Result<Page, Refusal>) -> Turned {
    Turned {
        answer,
        marks: [UNTOUCHED; 8],
    }
}
