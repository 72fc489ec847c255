// Words and numbers on standard output.
use crate::text::Base;
use refusals::Refusal;
use std::fmt::Display;

pub fn write(rt: &impl Print, text: &[u8]) {
    let _ = rt.write_all(text);
}

pub fn say(rt: &impl Print, words: impl Display + Drop) {
    let _ = rt.print(words);
}

// A line of bytes after a word, each as a number in a base. In hexadecimal each has two digits.
pub fn write_bytes(rt: &impl Print, word: &str, bytes: &[u8], base: Base) {
    say(rt, word);
    for byte in bytes {
        match base {
            Base::Decimal => say(rt, format_args!(" {byte}")),
            Base::Hexadecimal => say(rt, format_args!(" {byte:02x}")),
        }
    }
    say(rt, "\n");
}

pub fn write_refusal(rt: &impl Print, refusal: Refusal) {
    let _ = rt.println(refusal);
}
