ghost use Rattle.std.specs.Prelude.{◌≡◌, ◌<◌, ◌++◌, ◌∷◌, [], List, OnOk, OnErr, ℕ};
ghost use Rattle.std.specs.List.{list_any, find};
ghost use Rattle.indexmap.specs.IndexMap.{IsUnchanged};
ghost use Rattle.message_types.specs.declared.signed.Signed.{Signed as SignedWord};
ghost use Rattle.message_types.specs.declared.body.Body.{Body as Word};
ghost use Rattle.message_types.specs.declared.body.Body.TheVariants as body;
ghost use Rattle.message_types.specs.Digests.{digest_of_update};
ghost use Rattle.message_types.specs.Parts.{as_frame};
ghost use Rattle.quorum_sets.specs.Quorum.{has_quorum};
ghost use Rattle.quorum_sets.specs.Masters.{has_master};
ghost use Rattle.protocol_rules.specs.Preorder.{is_ack, updates_requested};
ghost use Rattle.preorder.specs.Index.{HasBallots, has_digest, at_ballot, ballot_update, ballot_has};

use indexmap::IndexMap;
use message_types::{PoAck, PoRequest, Signed, Update};
use plain_lists::Want;
use quorum_sets::{MOST_MASTERS, Sizes, VoterSet};

/// The requests and the acknowledgements of one number with one digest.
#[derive(Drop)]
pub struct Ballot {
    /// The first update with this digest that was requested.
    pub update: Option<Update>,
    /// The masters that acknowledged it.
    pub voters: VoterSet,
}

/// The ballot of each master, number and digest.
pub type Ballots = IndexMap<(u32, u64, [u8; 32]), Ballot>;

/// Notes the update of a request, of which this is the digest.
pub fn note_requested(
    ballots: &mut Ballots,
    frame: &Signed<PoRequest>,
    digest: [u8; 32],
) -> Result<(), Want>
    requires { digest ≡ digest_of_update frame.now.body.update.body }
    ensures noted { OnOk result ((known : List (SignedWord Word)) → HasBallots known ballots.old.entries
        → HasBallots (known ++ as_frame body.PoRequest frame.now ∷ []) ballots.new.entries) }
    ensures refused { OnErr result (IsUnchanged ballots.old ballots.new) }
{
    let key = (frame.signer, frame.body.k, digest);
    let mut ballot = ballot_at(ballots, frame.signer, frame.body.k, digest);
    if ballot.update.is_some() {
        return Ok(());
    }
    ballot.update = Some(frame.body.update.body);
    ballots.insert(key, ballot)?;
    Ok(())
}

/// Notes the vote of an acknowledgement.
pub fn note_vote(ballots: &mut Ballots, frame: &Signed<PoAck>) -> Result<(), Want>
    requires { frame.now.signer < MOST_MASTERS }
    ensures noted { OnOk result ((known : List (SignedWord Word)) → HasBallots known ballots.old.entries
        → HasBallots (known ++ as_frame body.PoAck frame.now ∷ []) ballots.new.entries) }
    ensures refused { OnErr result (IsUnchanged ballots.old ballots.new) }
{
    let ack = frame.body;
    let digest = ack.digest;
    let mut ballot = ballot_at(ballots, ack.j, ack.k, digest);
    ballot.voters.add(frame.signer);
    ballots.insert((ack.j, ack.k, digest), ballot)?;
    Ok(())
}

/// Whether a quorum acknowledged this.
pub fn is_acked(ballots: &Ballots, sizes: &Sizes, j: u32, k: u64, digest: [u8; 32]) -> bool
    ensures { (known : List (SignedWord Word)) → HasBallots known ballots.now.entries
        → result ≡ has_quorum sizes.now.n sizes.now.q (λ m. list_any (is_ack j k digest m) known) }
{
    match ballots.get(&(j, k, digest)) {
        Some(ballot) => ballot.voters.is_quorum(sizes),
        None => false,
    }
}

/// The first update requested so with this digest.
pub fn requested(ballots: &Ballots, j: u32, k: u64, digest: [u8; 32]) -> Option<Update>
    ensures { (known : List (SignedWord Word)) → HasBallots known ballots.now.entries
        → result ≡ find (has_digest digest) (updates_requested known j k) }
{
    match ballots.get(&(j, k, digest)) {
        Some(ballot) => ballot.update,
        None => None,
    }
}

// A copy of the ballot, an empty one where none is there.
fn ballot_at(ballots: &Ballots, j: u32, k: u64, digest: [u8; 32]) -> Ballot
    ensures update { result.update ≡ ballot_update (at_ballot ballots.now.entries (j, k, digest)) }
    ensures voters { (m : ℕ) → m < MOST_MASTERS → has_master result.voters m ≡ ballot_has (at_ballot ballots.now.entries (j, k, digest)) m }
{
    match ballots.get(&(j, k, digest)) {
        Some(ballot) => Ballot {
            update: ballot.update,
            voters: ballot.voters.copied(),
        },
        None => Ballot {
            update: None,
            voters: VoterSet::empty(),
        },
    }
}
