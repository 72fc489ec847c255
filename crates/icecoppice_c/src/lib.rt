// The functions of icecoppice as C calls them: the static library. Each export calls the function of its own name, and
// has its contract: two of each is what the C interface needs, since no crate can name a static library.
#![tactic(auto)]

ghost use Rattle.std.specs.Prelude.{◌≡◌};
ghost use Rattle.card.specs.LookUp.{looking};
ghost use Rattle.icecoppice.specs.FileNumbers.{ReadsInNumbers, WritesInNumbers, found_numbers};
ghost use Rattle.icecoppice.specs.Numbers.{KeepsInNumbers, settings_of, verdict_numbers};
ghost use Rattle.icecoppice.specs.PageNumbers.{TurnsInNumbers};
ghost use Rattle.icecoppice.specs.WatchNumbers.{StepsInNumbers, start_numbers};
ghost use Rattle.judge.specs.Judgment.{judgment};
ghost use Rattle.paging.specs.Paging.{call_of};
ghost use Rattle.requests.specs.Request.{request_of};
ghost use Rattle.watch.specs.Start.{starting};

use icecoppice::{
    AnswerNumbers, FoundNumbers, PageNumbers, ReadingNumbers, StartNumbers, StepNumbers,
    VerdictNumbers, WritingNumbers,
};
use watch::Watch;

#[unsafe(no_mangle)]
pub extern "C" fn icecoppice_filter(
    k: i32,
    len: u16,
    h: u16,
    settle: u16,
    windows_least: u16,
    windows_most: u16,
    covered_least: u16,
    covered_most: u16,
    lowest: &mut [i32],
    highest: &mut [i32],
    marks: &mut [u8],
) -> AnswerNumbers
    ensures { KeepsInNumbers
        (request_of (settings_of k len h settle windows_least windows_most covered_least covered_most)
        lowest.old highest.old marks.old)
        result lowest.new highest.new marks.new }
{
    icecoppice::icecoppice_filter(
        k,
        len,
        h,
        settle,
        windows_least,
        windows_most,
        covered_least,
        covered_most,
        lowest,
        highest,
        marks,
    )
}

#[unsafe(no_mangle)]
pub extern "C" fn icecoppice_next_plan(
    k: i32,
    len: u16,
    h: u16,
    settle: u16,
    windows_least: u16,
    windows_most: u16,
    covered_least: u16,
    covered_most: u16,
    lowest: &[i32],
    highest: &[i32],
    given: &[u8],
    marks: &mut [u8],
) -> PageNumbers
    ensures { TurnsInNumbers
        (call_of (settings_of k len h settle windows_least windows_most covered_least covered_most)
        lowest.now highest.now given.now marks.old)
        result marks.new }
{
    icecoppice::icecoppice_next_plan(
        k,
        len,
        h,
        settle,
        windows_least,
        windows_most,
        covered_least,
        covered_most,
        lowest,
        highest,
        given,
        marks,
    )
}

#[unsafe(no_mangle)]
pub extern "C" fn icecoppice_judge(
    k: i32,
    len: u16,
    h: u16,
    settle: u16,
    windows_least: u16,
    windows_most: u16,
    covered_least: u16,
    covered_most: u16,
    loads: &[i32],
    marks: &[u8],
) -> VerdictNumbers
    ensures { result ≡ verdict_numbers (judgment
        (settings_of k len h settle windows_least windows_most covered_least covered_most)
        loads.now marks.now) }
{
    icecoppice::icecoppice_judge(
        k,
        len,
        h,
        settle,
        windows_least,
        windows_most,
        covered_least,
        covered_most,
        loads,
        marks,
    )
}

#[unsafe(no_mangle)]
pub extern "C" fn icecoppice_read(
    file: &[u8],
    lowest: &mut [i32],
    highest: &mut [i32],
) -> ReadingNumbers
    ensures { ReadsInNumbers file.now lowest.old highest.old
        result lowest.new highest.new }
{
    icecoppice::icecoppice_read(file, lowest, highest)
}

#[unsafe(no_mangle)]
pub extern "C" fn icecoppice_look_up(file: &[u8], slot: usize) -> FoundNumbers
    ensures { result ≡ found_numbers (looking slot file.now) }
{
    icecoppice::icecoppice_look_up(file, slot)
}

#[unsafe(no_mangle)]
pub extern "C" fn icecoppice_write(
    k: i32,
    len: u16,
    h: u16,
    settle: u16,
    windows_least: u16,
    windows_most: u16,
    covered_least: u16,
    covered_most: u16,
    lowest: &[i32],
    highest: &[i32],
    out: &mut [u8],
) -> WritingNumbers
    ensures { WritesInNumbers
        (settings_of k len h settle windows_least windows_most covered_least covered_most)
        lowest.now highest.now out.old result out.new }
{
    icecoppice::icecoppice_write(
        k,
        len,
        h,
        settle,
        windows_least,
        windows_most,
        covered_least,
        covered_most,
        lowest,
        highest,
        out,
    )
}

#[unsafe(no_mangle)]
pub extern "C" fn icecoppice_watch_start(k: i32, len: u16, h: u16) -> StartNumbers
    ensures { result ≡ start_numbers (starting k len h) }
{
    icecoppice::icecoppice_watch_start(k, len, h)
}

#[unsafe(no_mangle)]
pub extern "C" fn icecoppice_watch_step(watch: Watch, load: i32) -> StepNumbers
    ensures { StepsInNumbers watch load result }
{
    icecoppice::icecoppice_watch_step(watch, load)
}
