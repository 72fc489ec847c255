// Document 01's table "Where each refusal is checked", for its places lengths, settings and slots, with the rows of
// document 02's T-01, T-05 and T-06. No function of the planner is used here. Each check gives the document's number of
// the first refusal that applies, and not a `Refusal`: its `number` is a function of the planner, which is tested here
// too.
use crate::calls::{Call, Given};
use settings::{CountRange, Settings};

// A row of the table.
fn row(number: u16, applies: bool) -> Result<(), u16> {
    if applies {
        return Err(number);
    }
    Ok(())
}

// A call of the filter. A start of the watch is a call for 64 slots.
pub fn request(call: &Call) -> Result<(), u16> {
    lengths(call, call.highest() != call.n || call.marks() != call.n)?;
    contents(call)
}

// A call of the judge, which has no highest loads.
pub fn judge(call: &Call) -> Result<(), u16> {
    lengths(call, call.marks() != call.n)?;
    settings(call.settings, call.n)
}

// A call of the writer: 28 and 18 come last.
pub fn writer(call: &Call) -> Result<(), u16> {
    lengths(call, call.highest() != call.n)?;
    contents(call)?;
    row(28, call.settings.shape.settle != 1)?;
    row(18, call.buffer() < call.file())
}

// A call of paging: 22 exempts an empty given slice, 34 comes right after 22, and 35 comes last.
pub fn paging(call: &Call) -> Result<(), u16> {
    let given = call.given() != call.n && call.given() != 0;
    lengths(
        call,
        call.highest() != call.n || call.marks() != call.n || given,
    )?;
    row(34, call.n > 12)?;
    contents(call)?;
    row(35, matches!(call.given, Given::NoPlan))
}

// `different` says whether a slice other than the first has another length.
fn lengths(call: &Call, different: bool) -> Result<(), u16> {
    row(21, call.n == 0 || call.n > 64)?;
    row(22, different)
}

// The settings and the slots.
fn contents(call: &Call) -> Result<(), u16> {
    settings(call.settings, call.n)?;
    row(31, call.crossed().is_some_and(|slot| slot < call.n))
}

fn settings(settings: Settings, n: u16) -> Result<(), u16> {
    let shape = settings.shape;
    row(23, shape.len == 0 || shape.len > n)?;
    row(
        24,
        shape.h > 0 && u32::from(shape.h) + 1 >= u32::from(shape.len),
    )?;
    row(25, is_wrong(settings.windows, n))?;
    row(26, is_wrong(settings.covered, n))?;
    row(27, shape.settle > 8)
}

fn is_wrong(range: CountRange, n: u16) -> bool {
    range.least > range.most || range.most > n
}
