// Compares the judge with the rule as the search tests it.
use crate::counts::Tally;
use crate::samples::Sample;
use crate::search::{covered, is_plan, windows};
use judge::{Counts, judge};
use refusals::Refusal;

// Tries every string of bytes as marks for the loads of a request, each of which is over or under.
pub fn compare(tally: &mut Tally, sample: &Sample) {
    let mut request = sample.request();
    request.highest = request.lowest;
    for number in 0..request.byte_strings() {
        let string = request.tried(number);
        let marks = string.bytes();
        let yes = is_plan(&request, marks);
        let verdict = judge(request.settings, request.lowest(), marks);
        tally.add(yes, agrees(verdict, yes, marks));
    }
}

// Whether the verdict is yes with the counts of the marks, or no, as it should be. Field by field, since the judge's
// counts are u16, and that a count of a slice fits one is not known.
fn agrees(verdict: Result<Option<Counts>, Refusal>, yes: bool, marks: &[u8]) -> bool {
    match verdict {
        Ok(Some(counts)) => {
            yes && usize::from(counts.windows) == windows(marks)
                && usize::from(counts.covered) == covered(marks)
        }
        Ok(None) => !yes,
        Err(_) => false,
    }
}
