// Compares the watch with the search: on fixed loads its count is the least number of windows that the search
// finds with both count ranges 0 to n and settle count 0. The filter is compared with the search on these requests too.
use crate::counts::Tally;
use crate::filtered::agrees;
use crate::samples::{Request, Sample};
use crate::search::search;
use refusals::Refusal;
use watch::Watch;

// Of the requests that differ in their maximums alone, the one with both at n is taken. Its minimums become 0, and its
// lowest loads are the fixed loads.
pub fn compare(tally: &mut Tally, sample: &Sample) {
    let mut request = sample.request();
    if request.settings.windows.most != request.n || request.settings.covered.most != request.n {
        return;
    }
    request.settings.windows.least = 0;
    request.settings.covered.least = 0;
    request.highest = request.lowest;
    let windows = windows(&request);
    let found = search(&request);
    let is_least = match found {
        Some(found) => windows == Ok(found.least.windows),
        None => false,
    };
    let agrees = agrees(&request, &request.ask(), found);
    tally.add(windows != Ok(0), agrees && is_least);
}

// The watch's count.
fn windows(request: &Request) -> Result<usize, Refusal> {
    let settings = request.settings;
    let watch = Watch::start(settings.k, settings.shape.len, settings.shape.h)?;
    let ran = watch.run(request.lowest());
    ran.ended?;
    Ok(ran.watch.windows as usize)
}
