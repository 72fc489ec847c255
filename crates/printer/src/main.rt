// The plan printer: reads one form 1 file from standard input and writes its plan to standard output.
#![tactic(auto)]

ghost use Rattle.std.specs.Prelude.{◌≡◌, ◌≤◌, length};
ghost use Rattle.arrayvec.specs.ArrayVec.{array_vec_len};
ghost use Rattle.settings.specs.Refusals.{limit};
ghost use Rattle.requests.specs.Request.{request_of};
ghost use Rattle.listing.specs.Text.{max_length};
ghost use Rattle.printer.specs.declared.TheConstants.{HELD_BYTES};
ghost use Rattle.printer.specs.Printed.{held_bytes, Printed, OfFile, loads, marks as Printed·marks};
ghost use Rattle.requests.specs.Promise.{Keeps};

use arrayvec::ArrayVec;
use card::{Header, read};
use filter::filter;
use settings::{LIMIT, Settings};
use std::io::Read;

// How many bytes of a file are held: one more than a file may have, so that a longer one is refused.
const HELD_BYTES: usize = 4097;

// The length of the buffer for the text. Every answer's text fits: `print` asks for at least `max_length` bytes.
const MAX_LENGTH: usize = 53 + 32 * LIMIT;

fn main(rt: HostRuntime) {
    let file = read_input(&mut rt.stdin());
    // An array with a length that comes beside, as the contract of `print` has it.
    let mut text = [0; MAX_LENGTH];
    let length = print(&file, &mut text);
    write_output(&rt, &text[..length]);
}

// Reads an input up to its end, or as much as is held.
fn read_input(from: &mut impl Read) -> ArrayVec<u8, HELD_BYTES>
    ensures capacity { HELD_BYTES ≡ held_bytes }
    ensures size { array_vec_len result ≤ held_bytes }
{
    let mut file = ArrayVec::from([0; HELD_BYTES]);
    let size = read_full(from, &mut file);
    file.truncate(size);
    file
}

// Reads until the slice is full, the input ends or a read fails, and gives how many bytes it put at the slice's start.
// No `io::copy`, which reads again where a signal interrupted it.
fn read_full(from: &mut impl Read, out: &mut [u8]) -> usize
    ensures { result ≤ length out.new }
{
    let mut size = 0;
    while size < out.len() {
        match from.read(&mut out[size..]) {
            Ok(0) | Err(_) => break,
            Ok(n) => size += n,
        }
    }
    size
}

// Writes to standard output; where that does not take all of it, says so on standard error.
fn write_output(rt: &(impl Print + Eprint), text: &[u8]) {
    if rt.write_all(text).is_err() {
        let _ = rt.eprint("printer: standard output did not take the whole answer\n");
    }
}

// Writes the text for a file, and gives its length.
fn print(file: &[u8], text: &mut [u8]) -> usize
    requires { max_length ≤ length text.old }
    ensures { Printed (OfFile file.now loads loads Printed·marks) text.old
        text.new result }
{
    // Arrays with a length beside: lists cut to n would be no plainer, since what `read` writes then has to be followed
    // back into each list, by a proof longer than that n fits the arrays.
    let mut lowest = [0i32; LIMIT];
    let mut highest = [0i32; LIMIT];
    let mut marks = [0u8; LIMIT];
    match read(file, &mut lowest, &mut highest) {
        Ok(Header { settings, n }) => print_plan(
            settings,
            &mut lowest[..n],
            &mut highest[..n],
            &mut marks[..n],
            text,
        ),
        Err(refusal) => listing::write_refusal(refusal, text),
    }
}

// Writes the text for a request, and gives its length.
fn print_plan(
    settings: Settings,
    lowest: &mut [i32],
    highest: &mut [i32],
    marks: &mut [u8],
    text: &mut [u8],
) -> usize
    requires { (length lowest.old ≤ limit) × (max_length ≤ length text.old) }
    ensures { Printed
        (Keeps (request_of settings lowest.old highest.old marks.old))
        text.old text.new result }
{
    let answer = filter(settings, lowest, highest, marks);
    listing::write_answer(answer, lowest, highest, marks, text)
}
