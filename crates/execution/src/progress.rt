ghost use Rattle.std.specs.Prelude.{◌≡◌, ◌+◌, ◌-◌, ◌≤◌, ◌<◌, ◌∷◌, [], length, map, take, drop, vec_len, vec_capacity};
ghost use Rattle.protocol_rules.specs.Execution.{kept_after};
ghost use Rattle.execution.specs.Ran.{request_of, certificate};
ghost use Rattle.execution.specs.Progress.{HasCounts, HasDone, IsStopped, HasClients};

use indexmap::IndexMap;
use message_types::Update;
use quorum_sets::{CLIENT_PLACES, MOST_CLIENTS};

/// The certified update of each master and number.
pub type CertifiedUpdates = IndexMap<(u32, u64), Update>;

/// Executes the requests from `start` on up to the first that isn't certified, and gives its place.
pub fn advance(
    requests: &[(u32, u64)],
    certificates: &CertifiedUpdates,
    start: usize,
    executed: &mut Vec<Update>,
    counts: &mut [u64; CLIENT_PLACES],
) -> usize
    requires start { start ≤ length requests.now }
    requires has_room { vec_len executed.old + (length requests.now - start) ≤ vec_capacity executed.old }
    requires clients { HasClients certificates.now.entries }
    ensures within { result ≤ length requests.now }
    ensures room { vec_len executed.new + (length requests.now - result) ≤ vec_capacity executed.new }
    ensures done { HasDone (certificate certificates.now.entries) (map request_of (take start requests.now)) executed.old.items counts.old
        → HasDone (certificate certificates.now.entries) (map request_of (take result requests.now)) executed.new.items counts.new }
    ensures stopped { IsStopped (certificate certificates.now.entries) (map request_of (drop result requests.now)) }
{
    let mut at = start;
    while at < requests.len() {
        let Some(update) = certificates.get(&requests[at]) else {
            return at;
        };
        execute(executed, counts, update);
        at += 1;
    }
    at
}

/// Keeps an update where its number is the next of its client.
fn execute(executed: &mut Vec<Update>, counts: &mut [u64; CLIENT_PLACES], update: &Update)
    requires has_room { vec_len executed.old < vec_capacity executed.old }
    requires client { update.now.client < MOST_CLIENTS }
    ensures room { vec_capacity executed.old ≤ vec_capacity executed.new }
    ensures one { vec_len executed.new ≤ vec_len executed.old + 1 }
    ensures kept { HasCounts executed.old.items counts.old → executed.new.items ≡ kept_after executed.old.items (update.now ∷ []) }
    ensures counted { HasCounts executed.old.items counts.old → HasCounts executed.new.items counts.new }
{
    let place = update.client as usize;
    if update.t == 0 || update.t - 1 != counts[place] {
        return;
    }
    executed.push(*update).unwrap();
    counts[place] = update.t;
}
