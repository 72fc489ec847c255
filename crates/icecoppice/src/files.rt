// Form 1 files for C: the reader, the look-up by slot number, and the writer.
ghost use Rattle.std.specs.Prelude.{◌≡◌};
ghost use Rattle.card.specs.LookUp.{looking};
ghost use Rattle.icecoppice.specs.FileNumbers.{ReadsInNumbers, reading_numbers, header_numbers};
ghost use Rattle.icecoppice.specs.FileNumbers.{found_numbers, WritesInNumbers, writing_numbers};
ghost use Rattle.icecoppice.specs.Numbers.{settings_of};

use crate::gather;
use card::{Header, look_up, read};
use refusals::Refusal;
use rule::Range;
use settings::Settings;
use writer::write;

// What the reader gives, in numbers: the code 0, the number of slots and the settings, or the refusal's number and
// zeros.
#[repr(C)]
#[derive(Clone, Copy)]
pub struct ReadingNumbers {
    pub code: u16,
    pub n: usize,
    pub k: i32,
    pub len: u16,
    pub h: u16,
    pub settle: u16,
    pub windows_least: u16,
    pub windows_most: u16,
    pub covered_least: u16,
    pub covered_most: u16,
}

// What a look-up gives, in numbers: the code 0 and the slot's load range, or the refusal's number and zeros.
#[repr(C)]
#[derive(Clone, Copy)]
pub struct FoundNumbers {
    pub code: u16,
    pub lowest: i32,
    pub highest: i32,
}

// What the writer gives, in numbers: the code 0 and the file's length, or the refusal's number, and for 31 also the
// slot.
#[repr(C)]
#[derive(Clone, Copy)]
pub struct WritingNumbers {
    pub code: u16,
    pub slot: usize,
    pub length: usize,
}

pub fn icecoppice_read(file: &[u8], lowest: &mut [i32], highest: &mut [i32]) -> ReadingNumbers
    ensures { ReadsInNumbers file.now lowest.old highest.old
        result lowest.new highest.new }
{
    let reading = read(file, lowest, highest);
    ReadingNumbers::from(reading)
}

pub fn icecoppice_look_up(file: &[u8], slot: usize) -> FoundNumbers
    ensures { result ≡ found_numbers (looking slot file.now) }
{
    let found = look_up(file, slot);
    FoundNumbers::from(found)
}

pub fn icecoppice_write(
    k: i32,
    len: u16,
    h: u16,
    settle: u16,
    windows_least: u16,
    windows_most: u16,
    covered_least: u16,
    covered_most: u16,
    lowest: &[i32],
    highest: &[i32],
    out: &mut [u8],
) -> WritingNumbers
    ensures { WritesInNumbers
        (settings_of k len h settle windows_least windows_most covered_least covered_most)
        lowest.now highest.now out.old result out.new }
{
    let settings = gather(
        k,
        len,
        h,
        settle,
        windows_least,
        windows_most,
        covered_least,
        covered_most,
    );
    let writing = write(settings, lowest, highest, out);
    WritingNumbers::from(writing)
}

impl From<Result<Header, Refusal>> for ReadingNumbers {
    ghost from_gives = { λ reading numbers. numbers ≡ header_numbers reading };

    fn from(reading: Result<Header, Refusal>) -> ReadingNumbers {
        match reading {
            Err(refusal) => numbers(refusal.number(), 0, gather(0, 0, 0, 0, 0, 0, 0, 0)),
            Ok(Header { settings, n }) => numbers(0, n, settings),
        }
    }
}

impl From<Result<Range, Refusal>> for FoundNumbers {
    ghost from_gives = { λ found numbers. numbers ≡ found_numbers found };

    fn from(found: Result<Range, Refusal>) -> FoundNumbers {
        match found {
            Err(refusal) => FoundNumbers {
                code: refusal.number(),
                lowest: 0,
                highest: 0,
            },
            Ok(range) => FoundNumbers {
                code: 0,
                lowest: range.lowest,
                highest: range.highest,
            },
        }
    }
}

impl From<Result<usize, Refusal>> for WritingNumbers {
    ghost from_gives = { λ writing numbers. numbers ≡ writing_numbers writing };

    fn from(writing: Result<usize, Refusal>) -> WritingNumbers {
        match writing {
            Err(refusal) => WritingNumbers {
                code: refusal.number(),
                slot: refusal.slot(),
                length: 0,
            },
            Ok(length) => WritingNumbers {
                code: 0,
                slot: 0,
                length,
            },
        }
    }
}

fn numbers(code: u16, n: usize, settings: Settings) -> ReadingNumbers
    ensures { result ≡ reading_numbers code n settings }
{
    ReadingNumbers {
        code,
        n,
        k: settings.k,
        len: settings.shape.len,
        h: settings.shape.h,
        settle: settings.shape.settle,
        windows_least: settings.windows.least,
        windows_most: settings.windows.most,
        covered_least: settings.covered.least,
        covered_most: settings.covered.most,
    }
}
