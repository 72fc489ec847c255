// The writer of form 1 files: settings and load ranges as bytes in a lent buffer, without a note. specs/Writing.antt
// says what comes back.
#![tactic(auto)]

ghost use mathlib.Core.List.{flat_map};
ghost use Rattle.std.specs.Prelude.{◌≡◌};
ghost use Rattle.buffer.specs.Written.{Written};
ghost use Rattle.form1.specs.Layout.{record_bytes};
ghost use Rattle.requests.specs.Request.{paired};
ghost use Rattle.writer.specs.Writing.{outcome_of, writing};

use checks::check_request;
use form1::{RECORD, SETTLE, TRAILER, put_range, put_trailer};
use refusals::Refusal;
use rule::Range;
use settings::Settings;

// Gives the first refusal that applies, or the length of the file. Only in the latter case does it write: the file,
// into the first bytes of the buffer.
pub fn write(
    settings: Settings,
    lowest: &[i32],
    highest: &[i32],
    out: &mut [u8],
) -> Result<usize, Refusal>
    ensures { outcome_of result out.new
        ≡ writing settings lowest.now highest.now out.old }
{
    check_request(settings, lowest, highest, false)?;
    if settings.shape.settle != SETTLE {
        return Err(Refusal::StoredSettle);
    }
    let n = lowest.len();
    if out.len() < TRAILER + RECORD * n {
        return Err(Refusal::Buffer);
    }
    let trailer = put_records(lowest, highest, out);
    Ok(put_trailer(settings, n as u16, out, trailer))
}

// Puts a record for each slot, from the first byte on, and gives the place after them.
fn put_records(lowest: &[i32], highest: &[i32], out: &mut [u8]) -> usize
    ensures { Written (flat_map record_bytes (paired lowest.now highest.now))
        0 out.old out.new result }
{
    let mut next = 0;
    for (low, high) in lowest.iter().zip(highest) {
        let range = Range {
            lowest: *low,
            highest: *high,
        };
        next = put_range(range, out, next);
    }
    next
}
