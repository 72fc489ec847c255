// What the watch does, load by load.
use crate::fields::{count, first_numbers, loads};
use crate::show::{say, write_refusal};
use watch::Watch;

// The fields of `watch`: k, len, h and, if there are rounds, their number; the loads; the loads of a round. The rounds
// are taken before the loads.
pub fn watched(rt: &impl Print, line: &[u8]) {
    let [k, len, h, rounds, ..] = first_numbers(line);
    match Watch::start(k, count(len), count(h)) {
        Ok(watch) => {
            let watch = after_rounds(watch, &loads(line, 2), rounds.unsigned_abs());
            write_steps(rt, watch, &loads(line, 1));
        }
        Err(refusal) => write_refusal(rt, refusal),
    }
}

// The fields of `step`: a state, which is k, len, h, the slots taken, the windows, and the slots and bridges left to
// the active window; the loads.
pub fn stepped(rt: &impl Print, line: &[u8]) {
    let [k, len, h, taken, windows, room, spare, _] = first_numbers(line);
    let watch = Watch {
        k,
        len: count(len),
        h: count(h),
        taken: taken.unsigned_abs(),
        windows: windows.unsigned_abs(),
        room: count(room),
        spare: count(spare),
    };
    write_steps(rt, watch, &loads(line, 1));
}

fn after_rounds(watch: Watch, loads: &[i32], n: u32) -> Watch {
    let mut now = watch;
    for _ in 0..n {
        now = now.run(loads).watch;
    }
    now
}

// Writes the state, and then what each load leads to.
fn write_steps(rt: &impl Print, watch: Watch, loads: &[i32]) {
    write_state(rt, watch);
    let mut now = watch;
    for load in loads {
        now = step(rt, now, *load);
    }
}

// Takes one load, writes the answer and the state that came back, and gives that state.
fn step(rt: &impl Print, watch: Watch, load: i32) -> Watch {
    let stepped = watch.step(load);
    match stepped.answer {
        Ok(true) => say(rt, "opened: "),
        Ok(false) => say(rt, "taken: "),
        Err(refusal) => say(rt, format_args!("{refusal}: ")),
    }
    write_state(rt, stepped.watch);
    stepped.watch
}

// Writes the slots taken, the windows, and the slots and bridges left to the active window. No Display, since the type
// is of another crate.
fn write_state(rt: &impl Print, watch: Watch) {
    let Watch {
        taken,
        windows,
        room,
        spare,
        ..
    } = watch;
    say(
        rt,
        format_args!("slots {taken} windows {windows} left {room} {spare}\n"),
    );
}
