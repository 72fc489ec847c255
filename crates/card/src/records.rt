// The records before the trailer.
ghost use Rattle.std.specs.Prelude.{◌++◌, ◌≡◌, ◌+◌, ◌-◌, ◌*◌, ◌≤◌, length, drop};
ghost use Rattle.form1.specs.Form1.{trailer, distance, range_of, tabulate};

use form1::{RECORD, range_at};

// Puts the records of n slots into the first n places of both slices; start is the place of the first record.
pub(crate) fn fill(file: &[u8], start: usize, n: usize, lowest: &mut [i32], highest: &mut [i32])
    requires start_value { (start ≡ trailer file.now - distance file.now) × (start + 8 * n ≤ length file.now) }
    requires n_in_bounds { (n ≤ length lowest.old) × (n ≤ length highest.old) }
    ensures lowest_after { lowest.new
        ≡ tabulate n (λ slot. (range_of slot file.now).lowest) ++ drop n lowest.old }
    ensures highest_after { highest.new
        ≡ tabulate n (λ slot. (range_of slot file.now).highest) ++ drop n highest.old }
{
    for slot in 0..n {
        let range = range_at(file, start + RECORD * slot);
        lowest[slot] = range.lowest;
        highest[slot] = range.highest;
    }
}
