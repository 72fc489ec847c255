// Every check of a request, from lengths to slots: refusals 21 to 31. Their order is `request_refusal` in
// crates/requests/specs/Request.antt.
#![tactic(auto)]

ghost use Rattle.std.specs.Prelude.{◌≡◌, length};
ghost use Rattle.refusals.specs.Answer.{refusal_of};
ghost use Rattle.requests.specs.Request.{crossed, paired, request_refusal};

use refusals::Refusal;
use settings::{Settings, check, differ};

// The first refusal that applies to a request of these settings and loads; `different` says whether
// another slice that comes with them differs in length from the first.
#[tactic(auto, unfolding(requests::specs::Request::request_refusal, refusals::specs::Table::first))]
pub fn check_request(
    settings: Settings,
    lowest: &[i32],
    highest: &[i32],
    different: bool,
) -> Result<(), Refusal>
    ensures { refusal_of result ≡ request_refusal settings lowest.now highest.now different }
{
    let n = lowest.len();
    check(settings, n, differ(n, highest.len()) | different)?;
    first_crossed(lowest, highest)
}

// Refusal 31, where no refusal before it applies.
fn first_crossed(lowest: &[i32], highest: &[i32]) -> Result<(), Refusal>
    requires { length highest.now ≡ length lowest.now }
    ensures { refusal_of result ≡ crossed 0 (paired lowest.now highest.now) }
{
    match lowest.iter().zip(highest).position(|(lo, hi)| lo > hi) {
        Some(slot) => Err(Refusal::Crossed(slot)),
        None => Ok(()),
    }
}
