// Compares the filter with the search.
use crate::answers::{Given, Least, UNTOUCHED};
use crate::counts::Tally;
use crate::samples::{Request, Sample};
use crate::search::{Found, search};

pub fn compare(tally: &mut Tally, sample: &Sample) {
    let request = sample.request();
    let found = search(&request);
    tally.add(found.is_some(), agrees(&request, &request.ask(), found));
}

// Whether the filter gave what was found.
pub fn agrees(request: &Request, given: &Given, found: Option<Found>) -> bool {
    match found {
        Some(found) => {
            given.answer == Ok(Some(raised(request, found.least)))
                && is_narrowed(request, given, &found.under, &found.over)
                && given.marks.starts_with(found.first.bytes())
        }
        None => {
            given.answer == Ok(None)
                && is_narrowed(request, given, &[true; 8], &[true; 8])
                && given.marks == [UNTOUCHED; 8]
        }
    }
}

// A minimum is the least count found or the given one, whichever is larger; no minimum raises the thrift.
fn raised(request: &Request, found: Least) -> Least {
    let settings = request.settings;
    Least {
        windows: found.windows.max(usize::from(settings.windows.least)),
        covered: found.covered.max(usize::from(settings.covered.least)),
        thrift: found.thrift,
    }
}

// Whether each slot's range lost its loads on the sides of k that the slot does not keep, and nothing else.
fn is_narrowed(request: &Request, given: &Given, under: &[bool], over: &[bool]) -> bool {
    let k = request.settings.k;
    let above = request.above();
    is_cut(
        request.lowest(),
        &given.lowest,
        under,
        |load| load.max(above),
    ) && is_cut(request.highest(), &given.highest, over, |load| load.min(k))
}

// Whether each load is what it was, or cut where its slot does not keep that side of k.
fn is_cut<C: Fn(i32) -> i32>(before: &[i32], after: &[i32], keeps: &[bool], cut: C) -> bool
    requires { C.IsAlwaysCallable cut }
{
    let mut loads = before.iter().zip(after).zip(keeps);
    loads.all(|((before, after), keeps)| {
        let expected = if *keeps { *before } else { cut(*before) };
        *after == expected
    })
}
