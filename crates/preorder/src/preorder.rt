ghost use Rattle.std.specs.Prelude.{◌≡◌, ◌+◌, ◌<◌, ◌≤◌, ◌&&◌, [], ℕ, Bool, List, true, false, OnOk, OnErr, IfOk, option_copied, replicate, slice_set, slice_index, min, max, None, if◌then◌else◌};
ghost use Rattle.message_types.specs.declared.updates.Update.{Update as Change};
ghost use Rattle.message_types.specs.declared.body.Body.TheVariants as body;
ghost use Rattle.message_types.specs.Parts.{as_frame};
ghost use Rattle.protocol_rules.specs.Group.{group_of, is_live, most_number};
ghost use Rattle.protocol_rules.specs.Preorder.{vector};
ghost use Rattle.protocol_rules.specs.Turns.{is_slow_beat};
ghost use Rattle.preorder.specs.Counted.{AreCounts};
ghost use Rattle.preorder.specs.PreorderState.{IsPreorderOf, Takes, Learns, Says, Where, certified_in, bodies_due, bodies_due_in_turn};

use crate::acks::{PendingAcks, push_acks};
use crate::again::{push_acks_again, push_request_again, reach_of, requested_in};
use crate::ballots::{Ballots, is_acked, note_requested, note_vote, requested};
use crate::certificates::{CertifiedUpdates, certify};
use crate::firsts::{Firsts, note_first, note_said};
use crate::introducing::{Introduced, push_requests_in_turn};
use crate::lanes::{Lane, push_acks_in_turn};
use crate::letting::let_go;
use crate::requests::{Counts, push_requests};
use crate::updates::{Updates, note_update};
use indexmap::IndexMap;
use message_types::{Body, PoAck, PoRequest, Signed, Update, update_digest};
use plain_lists::Want;
use protocol_rules::MOST_NUMBER;
use quorum_sets::{CLIENT_PLACES, MASTER_PLACES, MOST_CLIENTS, MOST_MASTERS, Sizes};
use std::alloc::Global;
use std::marker::Model;

/// One master's pre-ordering.
pub struct Preorder {
    alloc: Global,
    sizes: Sizes,
    clients: u32,
    me: u32,
    updates: Updates,
    firsts: Firsts,
    ballots: Ballots,
    certificates: CertifiedUpdates,
    /// How far the requests of each master are certified without a gap.
    reach: [u64; MASTER_PLACES],
    pending: PendingAcks,
    counts: Counts,
    lanes: [Lane; MASTER_PLACES],
    introduced: Introduced,
    /// The client and the number of the update of each own request, from request 1 on.
    own: Vec<(u32, u64)>,
}

// Taken apart here once, so that no crate above proves it again.
impl Drop for Preorder {
    fn drop(self) {
        let Preorder {
            alloc: _,
            sizes: _,
            clients: _,
            me: _,
            updates,
            firsts,
            ballots,
            certificates,
            reach: _,
            pending: _,
            counts: _,
            lanes: _,
            introduced: _,
            own,
        } = self;
        let_go(updates);
        let_go(firsts);
        let_go(ballots);
        let_go(certificates);
        let_go(own);
    }
}

impl Model for Preorder {
    ghost use Rattle.std.specs.Prelude.{◌≤◌};
    ghost use Rattle.quorum_sets.specs.declared.limits.TheConstants.{MOST_CLIENTS};
    ghost use Rattle.protocol_rules.specs.Group.{group_of};
    ghost use Rattle.preorder.specs.PreorderState.{PreorderState};

    ghost Value = { PreorderState };

    ghost view = { λ p. record {
      group = group_of p.sizes p.clients;
      me = p.me;
      updates = p.updates.entries;
      firsts = p.firsts.entries;
      ballots = p.ballots.entries;
      certificates = p.certificates.entries;
      reach = p.reach;
      pending = p.pending;
      counts = p.counts;
      lanes = p.lanes;
      introduced = p.introduced;
      own = p.own.items;
    } };

    ghost invariant = { λ p. p.clients ≤ MOST_CLIENTS };
}

impl Preorder {
    /// Of a master that took, knows and said nothing yet.
    pub fn new(alloc: Global, sizes: Sizes, clients: u32, me: u32) -> Self
        requires few_clients { clients ≤ MOST_CLIENTS }
        ensures { IsPreorderOf (group_of sizes clients) me result [] [] [] }
    {
        Preorder {
            alloc,
            sizes,
            clients,
            me,
            updates: IndexMap::new(alloc),
            firsts: IndexMap::new(alloc),
            ballots: IndexMap::new(alloc),
            certificates: IndexMap::new(alloc),
            reach: [0; MASTER_PLACES],
            pending: none_pending(),
            counts: Counts {
                introduced: 0,
                said_for: [0; CLIENT_PLACES],
            },
            lanes: no_lanes(),
            introduced: Introduced {
                request: 0,
                updates: [0; CLIENT_PLACES],
            },
            own: Vec::new(alloc),
        }
    }

    /// Takes an update that came as a frame of its own.
    pub fn take_update(&mut self, frame: &Signed<Update>) -> Result<(), Want>
        ensures group { self.new.group ≡ self.old.group }
        ensures taken { OnOk result (Takes self.old self.new (as_frame body.Update frame.now)) }
        ensures refused { OnErr result (self.new ≡ self.old) }
    {
        note_update(&mut self.updates, frame)
    }

    /// Learns a request of a master.
    pub fn take_request(&mut self, frame: &Signed<PoRequest>) -> Result<(), Want>
        requires signer { frame.now.signer < self.old.group.n }
        requires first { 1 ≤ frame.now.body.k }
        requires last { frame.now.body.k ≤ most_number }
        ensures group { self.new.group ≡ self.old.group }
        ensures learned { OnOk result (Learns self.old self.new (as_frame body.PoRequest frame.now)) }
        ensures refused { OnErr result (self.new ≡ self.old) }
    {
        self.firsts.reserve(1)?;
        self.certificates.reserve(1)?;
        let j = frame.signer;
        let k = frame.body.k;
        let digest = update_digest(&frame.body.update.body);
        let has_votes = is_acked(&self.ballots, &self.sizes, j, k, digest);
        note_requested(&mut self.ballots, frame, digest)?;
        note_first(&mut self.firsts, frame);
        widen(&mut self.pending, j, k);
        let candidate = if_acked(has_votes, Some(frame.body.update.body));
        certify(&mut self.certificates, &mut self.reach, j, k, candidate);
        Ok(())
    }

    /// Learns an acknowledgement of a master.
    pub fn take_ack(&mut self, frame: &Signed<PoAck>) -> Result<(), Want>
        requires signer { frame.now.signer < self.old.group.n }
        requires master { frame.now.body.j < self.old.group.n }
        ensures group { self.new.group ≡ self.old.group }
        ensures learned { OnOk result (Learns self.old self.new (as_frame body.PoAck frame.now)) }
        ensures refused { OnErr result (self.new ≡ self.old) }
    {
        self.certificates.reserve(1)?;
        let j = frame.body.j;
        let k = frame.body.k;
        let digest = frame.body.digest;
        note_vote(&mut self.ballots, frame)?;
        let has_votes = is_acked(&self.ballots, &self.sizes, j, k, digest);
        let update = requested(&self.ballots, j, k, digest);
        let candidate = if_acked(has_votes, update);
        certify(&mut self.certificates, &mut self.reach, j, k, candidate);
        Ok(())
    }

    /// How far the requests of master `j` are certified without a gap.
    pub fn vector(&self, j: u32) -> u64
        requires { j < self.now.group.n }
        ensures { Where self.now (λ g me taken known said. result ≡ vector g known j) }
    {
        self.reach[j as usize]
    }

    /// The update that is certified as number `k` of master `j`.
    pub fn certified(&self, j: u32, k: u64) -> Option<&Update>
        ensures { option_copied result ≡ certified_in self.now j k }
    {
        self.certificates.get(&(j, k))
    }

    /// The requests and acknowledgements due, which count as said from then on.
    pub fn due(&mut self) -> Result<Vec<Body>, Want>
        requires { is_live self.old.group ≡ false }
        ensures group { self.new.group ≡ self.old.group }
        ensures due { IfOk result (λ bodies. Where self.old (λ g me taken known said. bodies.items ≡ bodies_due g me taken known said)) }
        ensures said { IfOk result (λ bodies. Says self.old self.new bodies.items) }
        ensures refused { OnErr result (self.new ≡ self.old) }
    {
        let mut counts = self.counts;
        let mut bodies = Vec::new(self.alloc);
        push_requests(
            &mut bodies,
            &self.updates,
            &self.sizes,
            self.clients,
            self.me,
            &mut counts,
        )?;
        push_acks(&mut bodies, &self.firsts, self.sizes.n, &self.pending)?;
        note_said(&mut self.firsts, &bodies);
        self.counts = counts;
        self.pending = none_pending();
        Ok(bodies)
    }

    /// The requests and acknowledgements due by the rules that stay alive, which count as said from then on. `executed`
    /// is how many updates of each client are executed. At a beat what isn't certified is said again.
    pub fn due_in_turn(
        &mut self,
        executed: &[u64; CLIENT_PLACES],
        is_beat: bool,
    ) -> Result<Vec<Body>, Want>
        requires { is_live self.old.group ≡ true }
        ensures group { self.new.group ≡ self.old.group }
        ensures due { IfOk result (λ bodies. (done : List Change) (now : ℕ) (at_tick : Bool) → AreCounts self.old.group.clients executed.now done
            → is_beat ≡ (at_tick && is_slow_beat now)
            → Where self.old (λ g me taken known said. bodies.items ≡ bodies_due_in_turn g me taken done known said now at_tick)) }
        ensures said { IfOk result (λ bodies. (done : List Change) → AreCounts self.old.group.clients executed.now done
            → Says self.old self.new bodies.items) }
        ensures refused { OnErr result (self.new ≡ self.old) }
    {
        let mut introduced = self.introduced;
        let mut lanes = self.lanes;
        let mut bodies = Vec::new(self.alloc);
        push_requests_in_turn(
            &mut bodies,
            &self.updates,
            &self.sizes,
            self.clients,
            self.me,
            executed,
            &mut introduced,
        )?;
        let requested = requested_in(self.alloc, &bodies)?;
        let certified = reach_of(&self.certificates, &self.reach, self.me);
        push_request_again(&mut bodies, &self.updates, &self.own, certified, is_beat)?;
        let (sizes, clients) = (&self.sizes, self.clients);
        push_acks_in_turn(&mut bodies, &self.firsts, sizes, clients, &mut lanes)?;
        push_acks_again(
            &mut bodies,
            &self.firsts,
            self.sizes.n,
            &self.reach,
            is_beat,
        )?;
        self.own.extend_from_slice(&requested)?;
        note_said(&mut self.firsts, &bodies);
        self.introduced = introduced;
        self.lanes = lanes;
        Ok(bodies)
    }
}

fn no_lanes() -> [Lane; MASTER_PLACES]
    ensures { result ≡ replicate MASTER_PLACES (record { seen = 0; greatest = replicate CLIENT_PLACES 0 }) }
{
    [Lane {
        seen: 0,
        greatest: [0; CLIENT_PLACES],
    }; MASTER_PLACES]
}

fn none_pending() -> PendingAcks
    ensures low { result.low ≡ replicate MASTER_PLACES (MOST_NUMBER + 1) }
    ensures high { result.high ≡ replicate MASTER_PLACES 0 }
{
    PendingAcks {
        low: [MOST_NUMBER + 1; MASTER_PLACES],
        high: [0; MASTER_PLACES],
    }
}

fn if_acked(is_acked: bool, update: Option<Update>) -> Option<Update>
    ensures { result ≡ (if is_acked then update else None) }
{
    if is_acked { update } else { None }
}

// One more number for which an acknowledgement may be due.
fn widen(pending: &mut PendingAcks, j: u32, k: u64)
    requires master { j < MOST_MASTERS }
    requires number { k ≤ most_number }
    ensures low { pending.new.low ≡ slice_set pending.old.low j (min (slice_index pending.old.low j) k) }
    ensures high { pending.new.high ≡ slice_set pending.old.high j (max (slice_index pending.old.high j) (k + 1)) }
{
    let low = pending.low[j as usize].min(k);
    let high = pending.high[j as usize].max(k + 1);
    pending.low[j as usize] = low;
    pending.high[j as usize] = high;
}
