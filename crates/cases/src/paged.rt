// Which plans paging gives.
use crate::fields::{blank_marks, loads, marks, settings};
use crate::show::{say, write_bytes, write_refusal};
use crate::text::Base;
use paging::{Page, next_plan};
use settings::Settings;

// The most plans that are written for a line.
const MOST: u16 = 4096;

// The fields of `page`: the settings; the lowest loads; the highest loads; and for a single page, the given plan.
pub fn paged(rt: &impl Print, line: &[u8]) {
    let lowest = loads(line, 1);
    let highest = loads(line, 2);
    let rest = line.splitn(4, |byte| *byte == b';').nth(3).unwrap_or(&[]);
    if rest.is_empty() {
        write_plans(rt, settings(line), &lowest, &highest);
    } else {
        write_next(rt, settings(line), &lowest, &highest, &marks(line, 3));
    }
}

// Writes the next plan after the given one, or that there is none, or the number of the refusal.
fn write_next(rt: &impl Print, settings: Settings, lowest: &[i32], highest: &[i32], given: &[u8]) {
    let mut marks = blank_marks(lowest.len());
    match next_plan(settings, lowest, highest, given, &mut marks) {
        Ok(Page::Next) => write_bytes(rt, "next", &marks, Base::Decimal),
        Ok(Page::End) => say(rt, "no further one\n"),
        Err(refusal) => write_refusal(rt, refusal),
    }
}

// Pages from the empty slice to the end. Writes each plan, and then how many there were, or the number of the refusal.
fn write_plans(rt: &impl Print, settings: Settings, lowest: &[i32], highest: &[i32]) {
    let mut given = blank_marks(0);
    for plans in 0..MOST {
        let mut marks = blank_marks(lowest.len());
        match next_plan(settings, lowest, highest, &given, &mut marks) {
            Ok(Page::Next) => write_bytes(rt, "plan", &marks, Base::Decimal),
            Ok(Page::End) => return say(rt, format_args!("plans {plans}\n")),
            Err(refusal) => return write_refusal(rt, refusal),
        }
        given = marks;
    }
}
