// What the filter answers.
use crate::fields::{blank_marks, loads, settings};
use crate::judged::write_verdict;
use crate::show::{say, write};
use arrayvec::ArrayVec;
use filter::filter;
use judge::judge;
use settings::{LIMIT, Settings};

// The length of the buffer for the text of an answer, as in the plan printer.
const MAX_LENGTH: usize = 53 + 32 * LIMIT;

// The fields of `filter`: the settings; the lowest loads; the highest loads.
pub fn filtered(rt: &impl Print, line: &[u8]) {
    let mut lowest = loads(line, 1);
    let mut highest = loads(line, 2);
    ask_filter(rt, settings(line), &mut lowest, &mut highest);
}

// Asks the filter, and writes the answer as the plan printer does, and for a plan what the judge says of it.
pub fn ask_filter(rt: &impl Print, settings: Settings, lowest: &mut [i32], highest: &mut [i32]) {
    let mut marks = blank_marks(lowest.len());
    let answer = filter(settings, lowest, highest, &mut marks);
    let mut text = ArrayVec::from([0u8; MAX_LENGTH]);
    let length = listing::write_answer(answer, lowest, highest, &marks, &mut text);
    text.truncate(length);
    write(rt, &text);
    if let Ok(Some(_)) = answer {
        settle(lowest, highest, &marks);
        say(rt, "judge ");
        write_verdict(rt, judge(settings, lowest, &marks));
    }
}

// Makes the lowest loads fit the marks: where a mark is 1 or 2, the slot's highest load replaces its lowest.
fn settle(lowest: &mut [i32], highest: &[i32], marks: &[u8]) {
    for ((load, highest), mark) in lowest.iter_mut().zip(highest).zip(marks) {
        if matches!(mark, 1 | 2) {
            *load = *highest;
        }
    }
}
