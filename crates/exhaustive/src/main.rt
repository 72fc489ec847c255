// Compares the filter, the judge, the watch and paging with an exhaustive search, refusals, the writer's too, with
// document 01's table, and what the filter hands back with demand 3. The search and the table use no function of the
// planner. Each line of output has how many were compared, how many of these were planned, judged yes, have a window or
// have a next plan, and how many differ. All but the watches and the calls is done with the settle counts 0 to 3, with
// fewer samples above 0.
//
// Requests: every string of up to 5 slots that are under only, over only or open, with every accepted len and h and
// every pair of maximums; each with one threshold, one choice of loads and one pair of minimums. Longer requests are
// samples of 6 to 8 slots.
// Plans: every string of up to 4 slots that are under or over, with the same settings, and every string of the bytes 0
// to 4 and 255 as marks.
// Watches: every string of up to 8 slots that are under or over, with every accepted len and h.
// Pages: for every request of up to 4 slots, and samples of 5 to 8, from the empty slice to the end, and after every
// string that is no plan: of up to 3 slots a string of the bytes 0 to 4 and 255, of more a string of marks.
// Loosenings: one of each request, the longer ones too. Settlings: every settling of every open slot, in those of these
// requests whose window maximum is n. Where the rule of one more window need not hold, the line has how many break it.
// Calls of the filter, the judge, the writer and paging, and starts of a watch: at and around the limits of the table;
// those of paging, and those with another settle count than 1, are samples. Their lines have how often the table gives
// each refusal's number that it gives; 0 stands for no refusal.
#![tactic(auto)]

use crate::calls::{CALLS, FILTER_CALLS, JUDGE_CALLS, PAGING_CALLS, STARTS};
use crate::counts::Tally;
use crate::runs::{Line, Sampling, run};
use crate::samples::Sample;

mod answers;
mod calls;
mod counts;
mod filtered;
mod judged;
mod loads;
mod loosened;
mod numbers;
mod paged;
mod refused;
mod runs;
mod samples;
mod search;
mod settled;
mod strings;
mod table;
mod watched;

// `&` stands here, and not `&&`, wherever all lines are to be printed, also below one that differs.
fn main(rt: HostRuntime) {
    let plans = compare(&rt, 0) & compare(&rt, 1) & compare(&rt, 2) & compare(&rt, 3);
    let watches = Line {
        name: "watches",
        met: "with windows",
        settle: 0,
        most: 1,
        sampling: Sampling::All,
    };
    let watches = run(&rt, watches, 1, 9, watched::compare);
    if plans & watches & refusals(&rt) {
        let _ = println!(&rt; "all agree");
    }
}

fn compare(rt: &impl Print, settle: u16) -> bool {
    let requests = Line {
        name: "requests",
        met: "planned",
        settle,
        most: 2,
        sampling: Sampling::Longer,
    };
    let plans = Line {
        name: "plans",
        met: "yes",
        most: 1,
        ..requests
    };
    let pages = Line {
        name: "pages",
        met: "next",
        sampling: Sampling::Paged,
        ..requests
    };
    let loosenings = Line {
        name: "loosenings",
        ..requests
    };
    let under = Line {
        name: "settlings under",
        ..requests
    };
    let over = Line {
        name: "settlings over",
        ..requests
    };
    run(rt, requests, 1, 6, filtered::compare)
        & run(rt, requests, 6, 9, filtered::compare)
        & run(rt, plans, 1, 5, judged::compare)
        & run(rt, pages, 1, 9, paged::compare)
        & run(rt, loosenings, 1, 9, loosened::compare)
        & settlings(rt, under, false)
        & settlings(rt, over, true)
}

fn settlings(rt: &impl Print, line: Line, over: bool) -> bool {
    let met = if settled::holds(line.settle, over) {
        "planned"
    } else {
        "broken"
    };
    run(
        rt,
        Line { met, ..line },
        1,
        9,
        |tally: &mut Tally, sample: &Sample| settled::compare(tally, sample, over),
    )
}

fn refusals(rt: &impl Print) -> bool {
    refused::run(
        rt,
        "filter calls",
        FILTER_CALLS,
        CALLS,
        table::request,
        refused::filtered,
    ) & refused::run(
        rt,
        "judge calls",
        JUDGE_CALLS,
        CALLS,
        table::judge,
        refused::judged,
    ) & refused::run(
        rt,
        "watch starts",
        STARTS,
        STARTS,
        table::request,
        refused::started,
    ) & refused::run(
        rt,
        "writer calls",
        FILTER_CALLS,
        CALLS,
        table::writer,
        refused::written,
    ) & refused::run(
        rt,
        "paging calls",
        0,
        PAGING_CALLS,
        table::paging,
        refused::paged,
    )
}
