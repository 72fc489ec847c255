// Bytes put into a lent buffer from a place on. What comes back is the place after them, so that more can follow; a
// buffer that is too short takes what fits. specs/Written.antt says so.
#![tactic(auto)]

ghost use Rattle.std.specs.Prelude.{[], ◌∷◌};
ghost use Rattle.buffer.specs.Written.{Written};

pub fn put_bytes(bytes: &[u8], out: &mut [u8], place: usize) -> usize
    ensures { Written bytes.now place out.old out.new result }
{
    let end = out.len();
    let start = place.min(end);
    let room = end - start;
    // Where all fit, the few bytes of a number are stored without a call, since their count is fixed then.
    if bytes.len() <= room {
        let after = start + bytes.len();
        out[start..after].copy_from_slice(bytes);
        return after;
    }
    out[start..].copy_from_slice(&bytes[..room]);
    end
}

// The buffer and the place stay two parameters, as `Contracts` of demands has put_byte, and put_range and put_trailer of
// form1; where many functions follow one another, both are a struct (Text of listing).
pub fn put_byte(b: u8, out: &mut [u8], place: usize) -> usize
    ensures { Written (b ∷ []) place out.old out.new result }
{
    put_bytes(&[b], out, place)
}
