// What the judge says, and which plan the chooser hands back.
use crate::fields::{loads, marks, settings};
use crate::show::{say, write_bytes, write_refusal};
use crate::text::Base;
use chooser::choose;
use judge::{Counts, judge};
use refusals::Refusal;

// The fields of `judge`: the settings; the loads; the marks.
pub fn judged(rt: &impl Print, line: &[u8]) {
    let verdict = judge(settings(line), &loads(line, 1), &marks(line, 2));
    write_verdict(rt, verdict);
}

// Writes yes with both counts, no, or the number of the refusal.
pub fn write_verdict(rt: &impl Print, verdict: Result<Option<Counts>, Refusal>) {
    match verdict {
        Ok(Some(Counts { windows, covered })) => {
            say(rt, format_args!("yes {windows} {covered}\n"));
        }
        Ok(None) => say(rt, "no\n"),
        Err(refusal) => write_refusal(rt, refusal),
    }
}

// The fields of `choose`: the settings; the loads; the marks of one plan; the marks of the other.
pub fn chosen(rt: &impl Print, line: &[u8]) {
    let first = marks(line, 2);
    let other = marks(line, 3);
    let plan = choose(settings(line), &loads(line, 1), &first, &other);
    write_bytes(rt, "marks", plan, Base::Decimal);
}
