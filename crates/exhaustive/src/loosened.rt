// Tests demand 3 on two requests, of which one is looser.
use crate::answers::Given;
use crate::counts::Tally;
use crate::loads::load;
use crate::numbers::{next, pick};
use crate::samples::{Request, Sample};
use rule::Shape;
use settings::{CountRange, Settings};

pub fn compare(tally: &mut Tally, sample: &Sample) {
    let request = sample.request();
    let tighter = request.ask();
    let looser = loosened(&request, next(sample.number)).ask();
    tally.add(
        matches!(tighter.answer, Ok(Some(_))),
        agrees(&tighter, &looser),
    );
}

// Whether neither is wrong, planned stays planned, no minimum grows, and the ranges lie within each other.
fn agrees(tighter: &Given, looser: &Given) -> bool {
    match (tighter.answer, looser.answer) {
        (Ok(None), Ok(_)) => true,
        (Ok(Some(before)), Ok(Some(after))) => {
            after.windows <= before.windows
                && after.covered <= before.covered
                && at_most(&looser.lowest, &tighter.lowest)
                && at_most(&tighter.highest, &looser.highest)
        }
        _ => false,
    }
}

fn at_most(loads: &[i32], others: &[i32]) -> bool {
    loads.iter().zip(others).all(|(load, other)| load <= other)
}

// A looser request: no range narrower, len, h and maximums no smaller, the settle count and minimums no larger; k and n
// stay the same.
fn loosened(request: &Request, seed: usize) -> Request {
    let mut looser = *request;
    let threshold = request.threshold;
    move_some(
        &mut looser.lowest,
        threshold,
        next(seed / 2),
        |load, other| load.min(other),
    );
    move_some(
        &mut looser.highest,
        threshold,
        next(seed / 3),
        |load, other| load.max(other),
    );
    looser.settings = loosened_settings(request.settings, request.n, next(seed / 5));
    looser
}

// Moves each load as far as another one of the row of the threshold, or not at all.
fn move_some<M: Fn(i32, i32) -> i32>(loads: &mut [i32], threshold: usize, seed: usize, moved: M)
    requires { M.IsAlwaysCallable moved }
{
    let mut random = seed;
    for now in loads.iter_mut() {
        *now = moved(*now, load(threshold, random / 65536));
        random = next(random);
    }
}

fn loosened_settings(settings: Settings, n: u16, seed: usize) -> Settings {
    Settings {
        k: settings.k,
        shape: loosened_shape(settings.shape, n, seed),
        windows: loosened_counts(settings.windows, n, next(seed / 5)),
        covered: loosened_counts(settings.covered, n, next(seed / 7)),
    }
}

// The h picked is accepted with the len picked, so that the larger h is accepted with the larger len.
fn loosened_shape(shape: Shape, n: u16, seed: usize) -> Shape {
    let len = pick(seed, n);
    let h = pick(next(seed), len.saturating_sub(2));
    Shape {
        len: shape.len.max(len),
        h: shape.h.max(h),
        settle: pick(next(seed / 2), shape.settle),
    }
}

fn loosened_counts(range: CountRange, n: u16, seed: usize) -> CountRange {
    CountRange {
        least: pick(next(seed), range.least),
        most: range.most.max(pick(seed, n)),
    }
}
