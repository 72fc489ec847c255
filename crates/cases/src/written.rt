// What the writer stores.
ghost use Rattle.std.specs.Prelude.{◌≤◌};

use crate::cards::write_contents;
use crate::fields::{MANY, field, loads, settings};
use crate::show::{say, write_bytes, write_refusal};
use crate::text::{Base, numbers};
use arrayvec::ArrayVec;
use settings::Settings;
use writer::write;

// What each byte of a buffer holds before.
const BEFORE: u8 = 0xee;

// The fields of `make`: the settings; the lowest loads; the highest loads; the length of the buffer, at most MANY.
pub fn made(rt: &impl Print, line: &[u8]) {
    let mut buffer = ArrayVec::from([BEFORE; MANY]);
    buffer.truncate(size(field(line, 3)));
    store(rt, settings(line), &loads(line, 1), &loads(line, 2), buffer);
}

fn size(field: &[u8]) -> usize
    ensures { result ≤ 130 }
{
    let given = numbers::<1>(field, Base::Decimal);
    let n = given.first().copied().unwrap_or(0);
    MANY.min(n.unsigned_abs() as usize)
}

// Writes the length of the file, what the buffer holds then, and what the file holds by the view and the reader.
fn store(
    rt: &impl Print,
    settings: Settings,
    lowest: &[i32],
    highest: &[i32],
    mut buffer: ArrayVec<u8, MANY>,
) {
    match write(settings, lowest, highest, &mut buffer) {
        Ok(length) => {
            say(rt, format_args!("stored {length}"));
            write_bytes(rt, " in", &buffer, Base::Hexadecimal);
            buffer.truncate(length);
            write_contents(rt, &buffer);
        }
        Err(refusal) => write_refusal(rt, refusal),
    }
}

// Writes how many bytes the writer stores for a request that was read from a file, and whether these are the last bytes
// of the file.
pub fn store_again(
    rt: &impl Print,
    settings: Settings,
    lowest: &[i32],
    highest: &[i32],
    file: &[u8],
) {
    let mut buffer = ArrayVec::from([BEFORE; MANY]);
    match write(settings, lowest, highest, &mut buffer) {
        Ok(length) => {
            buffer.truncate(length);
            let end = if file.ends_with(&buffer) {
                " alike"
            } else {
                ""
            };
            say(rt, format_args!("stored again {length}{end}\n"));
        }
        Err(refusal) => write_refusal(rt, refusal),
    }
}
