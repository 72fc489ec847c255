// What a form 1 file holds.
use crate::fields::{MANY, bytes, field};
use crate::filtered::ask_filter;
use crate::show::{say, write_refusal};
use crate::text::Base;
use crate::written::store_again;
use arrayvec::ArrayVec;
use card::Header;
use rule::Shape;
use settings::{CountRange, PLACES, Settings};

// The fields of `read`: no numbers; the bytes of a file, in hexadecimal.
pub fn read(rt: &impl Print, line: &[u8]) {
    write_contents(rt, &bytes::<MANY>(field(line, 1), Base::Hexadecimal));
}

// Writes what a view gives for each slot, up to the first refusal, and what the reader gives.
pub fn write_contents(rt: &impl Print, bytes: &[u8]) {
    write_slots(rt, bytes);
    write_reading(rt, bytes);
}

fn write_slots(rt: &impl Print, file: &[u8]) {
    for slot in 0..PLACES {
        say(rt, format_args!("slot {slot} "));
        match view::viewed(file, slot) {
            Ok(range) => say(rt, format_args!("{}..{}\n", range.lowest, range.highest)),
            Err(refusal) => return write_refusal(rt, refusal),
        }
    }
}

// Writes what the reader gives, and what the writer and the filter answer to it.
fn write_reading(rt: &impl Print, file: &[u8]) {
    let mut lowest = ArrayVec::from([0i32; PLACES]);
    let mut highest = ArrayVec::from([0i32; PLACES]);
    match card::read(file, &mut lowest, &mut highest) {
        Ok(Header { settings, n }) => {
            lowest.truncate(n);
            highest.truncate(n);
            write_settings(rt, settings);
            store_again(rt, settings, &lowest, &highest, file);
            ask_filter(rt, settings, &mut lowest, &mut highest);
        }
        Err(refusal) => write_refusal(rt, refusal),
    }
}

// No Display, which only the crate of a type can give it, and these types are of other crates.
fn write_settings(rt: &impl Print, settings: Settings) {
    let Settings {
        k,
        shape,
        windows,
        covered,
    } = settings;
    let Shape { len, h, settle } = shape;
    say(rt, format_args!("k {k} len {len} h {h} settle {settle}"));
    write_range(rt, " windows", windows);
    write_range(rt, " covered", covered);
    say(rt, "\n");
}

fn write_range(rt: &impl Print, word: &str, range: CountRange) {
    let CountRange { least, most } = range;
    say(rt, format_args!("{word} {least}..{most}"));
}
