// A record and a trailer, put at a place.
ghost use Rattle.buffer.specs.Written.{Written};
ghost use Rattle.form1.specs.Layout.{record_bytes, trailer_bytes};

use crate::RECORD;
use crate::bytes::low;
use crate::trailer::{END, FORM};
use buffer::put_bytes;
use rule::Range;
use settings::Settings;

// Puts a record at a place, as far as it fits, and gives the place after it.
pub fn put_range(range: Range, out: &mut [u8], place: usize) -> usize
    ensures { Written (record_bytes range) place out.old out.new result }
{
    let highest = put_bytes(&range.lowest.to_le_bytes(), out, place);
    put_bytes(&range.highest.to_le_bytes(), out, highest)
}

// Puts the trailer of a file with n slots, as far as it fits.
pub fn put_trailer(settings: Settings, n: u16, out: &mut [u8], place: usize) -> usize
    ensures { Written (trailer_bytes settings n) place out.old out.new result }
{
    let back = (RECORD as u16).wrapping_mul(n).to_le_bytes();
    let k = settings.k.to_le_bytes();
    let trailer = [
        back[0],
        back[1],
        low(n),
        low(settings.shape.len),
        low(settings.shape.h),
        low(settings.windows.least),
        low(settings.windows.most),
        low(settings.covered.least),
        low(settings.covered.most),
        k[0],
        k[1],
        k[2],
        k[3],
        FORM,
        END[0],
        END[1],
    ];
    put_bytes(&trailer, out, place)
}
