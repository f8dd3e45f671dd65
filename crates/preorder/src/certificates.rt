ghost use Rattle.std.specs.Prelude.{◌≡◌, ◌+◌, ◌<◌, ◌≤◌, ℕ, List, slice_index};
ghost use Rattle.indexmap.specs.IndexMap.{spare};
ghost use Rattle.message_types.specs.declared.signed.Signed.{Signed as SignedWord};
ghost use Rattle.message_types.specs.declared.body.Body.{Body as Word};
ghost use Rattle.protocol_rules.specs.Group.{Group, most_number};
ghost use Rattle.preorder.specs.Index.{HasCertified, HasReach, CertifiesAt, at_pair, Reaches, ReachesLess, SameElsewhere};

use indexmap::IndexMap;
use message_types::Update;
use protocol_rules::MOST_NUMBER;
use quorum_sets::{MASTER_PLACES, MOST_MASTERS};

/// The certified update of each master and number.
pub type CertifiedUpdates = IndexMap<(u32, u64), Update>;

/// Notes that (j, k) is certified with this update, if any, unless it was certified before.
pub fn certify(
    certificates: &mut CertifiedUpdates,
    reach: &mut [u64; MASTER_PLACES],
    j: u32,
    k: u64,
    candidate: Option<Update>,
)
    requires room { 1 ≤ spare certificates.old }
    requires below { j < MOST_MASTERS }
    ensures { (g : Group) (known after : List (SignedWord Word)) → CertifiesAt g known after j k candidate
        → HasCertified g known certificates.old.entries → HasReach g known reach.old
        → HasCertified g after certificates.new.entries × HasReach g after reach.new }
{
    if certificates.contains_key(&(j, k)) {
        return;
    }
    let Some(update) = candidate else {
        return;
    };
    certificates.insert((j, k), update).unwrap();
    extend(certificates, reach, j);
}

// Goes on over the numbers of master j that are certified without a gap.
fn extend(certificates: &CertifiedUpdates, reach: &mut [u64; MASTER_PLACES], j: u32)
    requires below { j < MOST_MASTERS }
    ensures reaches { ReachesLess (λ k. at_pair certificates.now.entries (j, k)) (slice_index reach.old j)
        → Reaches (λ k. at_pair certificates.now.entries (j, k)) (slice_index reach.new j) }
    ensures others { SameElsewhere reach.old reach.new j }
{
    let start = reach[j as usize];
    let end = run_end(certificates, j, start);
    reach[j as usize] = end;
}

/// How far the numbers of master `j` are certified without a gap, where they are up to `start`.
pub fn run_end(certificates: &CertifiedUpdates, j: u32, start: u64) -> u64
    ensures { ReachesLess (λ k. at_pair certificates.now.entries (j, k)) start
        → Reaches (λ k. at_pair certificates.now.entries (j, k)) result }
{
    let mut end = start;
    while end < MOST_NUMBER && certificates.contains_key(&(j, end + 1)) {
        end += 1;
    }
    end
}
