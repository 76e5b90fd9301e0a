//! What words say that were loaded.
ghost use Rattle.std.specs.Prelude.{◌≡◌, ℕ, ◌≤◌};
ghost use Rattle.pram_machine.specs.declared.requests.Request.{Request};
ghost use Rattle.pram_words.specs.declared.phases.TheConstants.{LAST_PHASE};
ghost use Rattle.walkx.specs.Reads.{step_seen};
ghost use Rattle.walkx.specs.Requests.{AreWordsOf, heard_request};

use pram_machine::Request;
use pram_words::payload;

/// The step that the root and then word 0 show to be finished.
pub fn seen_step(root: u64, conflict: u64) -> u32
    requires { root ≤ LAST_PHASE }
    ensures { result ≡ step_seen root conflict }
{
    let step = (root / 3) as u32;
    if root % 3 == 0 && 1 <= step && conflict == u64::from(step) {
        step - 1
    } else {
        step
    }
}

/// The request that its three words stand for: the data place plus 1 or 0 for none, the data value,
/// and the next counter.
pub fn request_of(place: u64, value: u64, next: u64) -> Request
    ensures value { result ≡ heard_request place value next }
    ensures undoes { (t : ℕ) (r : Request) → AreWordsOf t r place value next → result ≡ r }
{
    let put = match payload(place) {
        0 => None,
        place => Some((place - 1, payload(value))),
    };
    Request {
        put,
        next: payload(next),
    }
}
