// Works the cases of its standard input, one on each line: document 01's worked plans, and more. A line begins with the
// name of an operation, whose numbers stand in fields divided by `;`. Words are skipped. Every line is written as it
// is, and below it what the operation gave.
#![tactic(auto)]

ghost use Rattle.std.specs.Prelude.{◌≤◌, length};

use crate::cards::read;
use crate::filtered::filtered;
use crate::judged::{chosen, judged};
use crate::paged::paged;
use crate::show::write;
use crate::watched::{stepped, watched};
use crate::written::made;
use arrayvec::ArrayVec;
use std::io::Read;

mod cards;
mod fields;
mod filtered;
mod judged;
mod paged;
mod show;
mod text;
mod watched;
mod written;

// The most bytes of standard input that are read.
const HELD_BYTES: usize = 65536;

fn main(rt: HostRuntime) {
    let mut text = ArrayVec::from([0; HELD_BYTES]);
    let size = read_full(&mut rt.stdin(), &mut text);
    text.truncate(size);
    for line in text.split_inclusive(|byte| *byte == b'\n') {
        write(&rt, line);
        operation(&rt, line);
    }
}

// Reads until the slice is full, the input ends or a read fails, and gives how many bytes it put at the slice's start.
// No `io::copy`, which reads again where a signal interrupted it, and at most 8,192 bytes at a time.
fn read_full(from: &mut impl Read, out: &mut [u8]) -> usize
    ensures { result ≤ length out.new }
{
    let mut size = 0;
    while size < out.len() {
        match from.read(&mut out[size..]) {
            Ok(0) | Err(_) => break,
            Ok(n) => size += n,
        }
    }
    size
}

// An operation is known by its first letter: a list of letters and closures would be no plainer than this match. A line
// that begins otherwise, such as a comment, is only written. Each function is the participle of its operation, since the
// verb itself names the function of another crate that it asks.
fn operation(rt: &impl Print, line: &[u8]) {
    match line.first() {
        Some(b'f') => filtered(rt, line),
        Some(b'j') => judged(rt, line),
        Some(b'c') => chosen(rt, line),
        Some(b'p') => paged(rt, line),
        Some(b'w') => watched(rt, line),
        Some(b's') => stepped(rt, line),
        Some(b'r') => read(rt, line),
        Some(b'm') => made(rt, line),
        _ => {}
    }
}
