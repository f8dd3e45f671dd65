ghost use Rattle.std.specs.Prelude.{◌≡◌, ◌≤◌, [], ℕ, slice_index};
ghost use Rattle.protocol_rules.specs.Group.{group_of};
ghost use Rattle.master_knowledge.specs.Past.{no_past};
ghost use Rattle.master_answers.specs.Replica.{IsReplicaOf};

use leader_proposals::{Proposer, Summary, Vouchers};
use master_knowledge::Knowledge;
use quorum_sets::{MOST_CLIENTS, Sizes};
use reconcile::Shares;
use std::alloc::Global;

/// What master `me` keeps: all that it knows, and of what it said all that it goes by.
pub struct ReplicaState {
    pub me: u32,
    pub knowledge: Knowledge,
    pub summary: Summary,
    pub proposer: Proposer,
    pub vouchers: Vouchers,
    pub shares: Shares,
}

// Taken apart here once: what holds it lets go of it by one call.
impl Drop for ReplicaState {
    fn drop(self) {
        let ReplicaState {
            me: _,
            knowledge: _,
            summary: _,
            proposer: _,
            vouchers: _,
            shares: _,
        } = self;
    }
}

impl ReplicaState {
    /// Of master `me` that heard and said nothing yet.
    pub fn new(alloc: Global, sizes: Sizes, clients: u32, me: u32) -> ReplicaState
        requires { clients ≤ MOST_CLIENTS }
        ensures is_replica { IsReplicaOf (group_of sizes clients) me result [] [] no_past [] }
        ensures counts { (c : ℕ) → slice_index result.vouchers.counts c ≡ 0 }
    {
        ReplicaState {
            me,
            knowledge: Knowledge::new(alloc, sizes, clients, me),
            summary: Summary::new(alloc, sizes),
            proposer: Proposer::new(sizes),
            vouchers: Vouchers::none(),
            shares: Shares::new(),
        }
    }
}
