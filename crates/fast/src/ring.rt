// The rows of least counts, of which the last ones are kept in a ring.
ghost use Rattle.std.specs.Prelude.{◌≡◌, ◌+◌, ◌-◌, ◌≤◌, ◌<◌, min};
ghost use Rattle.rule.specs.ClassCodes.{decode_all};
ghost use Rattle.fast.specs.Found.{or_found, Counted};
ghost use Rattle.fast.specs.Ring.{ring_rows, place_of, row_at, Ring};

use crate::NO_PLAN;
use crate::ends::ends_of;
use crate::row::{first_row, row_of};
use crate::slots::Slots;
use settings::PLACES;

// How many rows the ring has. Rows that have left it are made anew from the first on, so that more rows save time, and
// fewer save memory.
pub const ROWS: usize = 32;

// The place of row v.
pub(crate) fn place(v: u16) -> usize
    ensures { result ≡ place_of v }
{
    usize::from(v) % ROWS
}

// A window count, and the least covered count with at most so many windows.
#[derive(Clone, Copy)]
pub struct Found {
    pub windows: u16,
    pub thrift: u16,
}

// The first window count with which the covered maximum is kept, or the last that was tried.
fn or_found(found: Found, v: u16, count: u16, most: u16) -> Found
    ensures { result ≡ or_found found v count most }
{
    if found.thrift <= most {
        return found;
    }
    Found {
        windows: v,
        thrift: count,
    }
}

// The last row that was made, and the counts that went up with the rows (`Counted` in specs/Found.antt).
#[derive(Clone, Copy)]
pub struct Filled {
    pub last: u16,
    pub found: Found,
    pub fewer: u16,
}

// Makes the rows for 0 to w windows, up to the first that repeats: all after it do so too.
pub(crate) fn fill(slots: &Slots, w: u16, rows: &mut [[u16; PLACES]; ROWS]) -> Filled
    ensures last { result.last ≤ w }
    ensures ring { Ring slots.now.settings.shape (decode_all slots.now.classes.now) w rows.new result.last }
    ensures counted { Counted slots.now.settings (decode_all slots.now.classes.now) w result }
{
    let most = slots.settings.covered.most;
    let mut row = first_row(slots);
    rows[0] = row;
    let mut found = Found {
        windows: 0,
        thrift: row[0],
    };
    let mut fewer = NO_PLAN;
    for v in 0..w {
        fewer = row[0];
        let next = row_of(slots, &ends_of(slots, &row));
        rows[place(v + 1)] = next;
        found = or_found(found, v + 1, next[0], most);
        if next == row {
            return Filled {
                last: v + 1,
                found,
                fewer,
            };
        }
        row = next;
    }
    Filled {
        last: w,
        found,
        fewer,
    }
}

// The last rows of slots to which `left` windows are left, in a ring. Row `last` is the last that was made; those after it
// are equal to it.
#[derive(Drop)]
pub struct RowRing<'a> {
    pub slots: &'a Slots<'a>,
    pub left: u16,
    pub last: u16,
    pub rows: [[u16; PLACES]; ROWS],
    ghost made: { Ring slots.now.settings.shape (decode_all slots.now.classes.now) left rows last },
}

impl<'a> RowRing<'a> {
    // The row for as many windows as are left.
    pub(crate) fn row(&self) -> [u16; PLACES]
        ensures { result ≡ row_at self.now.rows (min self.now.left self.now.last) }
    {
        self.rows[place(self.left.min(self.last))]
    }

    // Sees to it that the row for one window fewer is in the ring too.
    pub(crate) fn make_ready(&mut self)
        ensures slots { self.new.slots.now ≡ self.old.slots.now }
        ensures left { self.new.left ≡ self.old.left }
        ensures recent { self.new.last < self.new.left - 1 + ring_rows }
    {
        if usize::from(self.left.saturating_sub(1)) + ROWS > usize::from(self.last) {
            return;
        }
        self.last = fill(self.slots, self.left, &mut self.rows).last;
    }

    // One window fewer is left.
    pub(crate) fn use_one(&mut self)
        ensures slots { self.new.slots.now ≡ self.old.slots.now }
        ensures left { self.new.left ≡ self.old.left - 1 }
        ensures last { self.new.last ≡ self.old.last }
        ensures rows { self.new.rows ≡ self.old.rows }
    {
        self.left = self.left.saturating_sub(1);
    }
}
