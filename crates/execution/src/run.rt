ghost use Rattle.std.specs.Prelude.{◌≡◌, ◌+◌, ◌≤◌, ◌<◌, ℕ, [], None, IsTrue, OnOk, OnErr, slice_index};
ghost use Rattle.protocol_rules.specs.Group.{group_of, most_number};
ghost use Rattle.protocol_rules.specs.Places.{are_rows};
ghost use Rattle.protocol_rules.specs.Execution.{executed_of, updates_of, waiting_of};
ghost use Rattle.protocol_rules.specs.Matrix as rules;
ghost use Rattle.summary_matrix.specs.Held.{TellsEach};
ghost use Rattle.execution.specs.Ran.{IsRunOf, LearnsRows, LearnsCertified, Where, requested};

use crate::progress::{CertifiedUpdates, advance};
use crate::requests::newly_eligible;
use indexmap::IndexMap;
use message_types::{Rows, Update};
use plain_lists::Want;
use quorum_sets::{CLIENT_PLACES, MASTER_PLACES, MOST_CLIENTS, Sizes};
use std::alloc::Global;
use std::marker::Model;
use summary_matrix::{Reach, eligible};

/// One master's execution of the ordered rows.
pub struct Run {
    alloc: Global,
    sizes: Sizes,
    clients: u32,
    numbers: u64,
    reach: Reach,
    /// All requests that the rows taken make eligible, in order.
    requests: Vec<(u32, u64)>,
    /// The place of the first of them that isn't certified.
    at: usize,
    certificates: CertifiedUpdates,
    executed: Vec<Update>,
    /// How many updates of each client are executed.
    counts: [u64; CLIENT_PLACES],
}

// Taken apart here once, so that no crate above proves it again.
impl Drop for Run {
    fn drop(self) {
        let Run {
            alloc: _,
            sizes: _,
            clients: _,
            numbers: _,
            reach: _,
            requests: _,
            at: _,
            certificates: _,
            executed: _,
            counts: _,
        } = self;
    }
}

impl Model for Run {
    ghost use Rattle.execution.specs.Ran.{Ran};

    ghost Value = { Ran };

    ghost use Rattle.execution.specs.Ready.{ran_of, IsReady};

    ghost view = { ran_of };

    ghost invariant = { IsReady };
}

impl Run {
    /// A run that took nothing yet.
    pub fn new(alloc: Global, sizes: Sizes, clients: u32) -> Run
        requires { clients ≤ MOST_CLIENTS }
        ensures { IsRunOf (group_of sizes clients) result (λ r. None) [] }
    {
        Run {
            alloc,
            sizes,
            clients,
            numbers: 0,
            reach: Reach {
                numbers: [0; MASTER_PLACES],
            },
            requests: Vec::new(alloc),
            at: 0,
            certificates: IndexMap::new(alloc),
            executed: Vec::new(alloc),
            counts: [0; CLIENT_PLACES],
        }
    }

    /// Takes the rows of the next number.
    pub fn take_rows(&mut self, rows: &Rows) -> Result<(), Want>
        requires rows { IsTrue (are_rows self.old.group rows.now) }
        requires number { self.old.numbers < most_number }
        ensures group { self.new.group ≡ self.old.group }
        ensures number { OnOk result (self.new.numbers ≡ self.old.numbers + 1) }
        ensures ok { OnOk result (LearnsRows self.old self.new rows.now) }
        ensures err { OnErr result (self.new ≡ self.old) }
    {
        let now = eligible(&self.sizes, rows);
        let fresh = newly_eligible(self.alloc, self.sizes.n, &self.reach, &now)?;
        let waiting = self.requests.len() - self.at;
        self.executed.reserve(waiting + fresh.len())?;
        self.requests.extend_from_slice(&fresh)?;
        self.reach.raise(&now);
        self.numbers += 1;
        self.at = advance(
            &self.requests,
            &self.certificates,
            self.at,
            &mut self.executed,
            &mut self.counts,
        );
        Ok(())
    }

    /// Takes the update that is certified as request `k` of master `j`. Of two for one request the first stands.
    pub fn take_certified(&mut self, j: u32, k: u64, update: &Update) -> Result<(), Want>
        requires { update.now.client < self.old.group.clients }
        ensures group { self.new.group ≡ self.old.group }
        ensures numbers { self.new.numbers ≡ self.old.numbers }
        ensures ok { OnOk result (LearnsCertified self.old self.new j k update.now) }
        ensures err { OnErr result (self.new ≡ self.old) }
    {
        if self.certificates.contains_key(&(j, k)) {
            return Ok(());
        }
        self.certificates.insert((j, k), *update)?;
        self.at = advance(
            &self.requests,
            &self.certificates,
            self.at,
            &mut self.executed,
            &mut self.counts,
        );
        Ok(())
    }

    /// The executed updates.
    pub fn list(&self) -> &[Update]
        ensures { Where self.now (λ g certified runs. result.now ≡ executed_of g certified runs) }
    {
        self.executed.as_slice()
    }

    /// How many updates of each client are executed.
    pub fn counts(&self) -> &[u64; CLIENT_PLACES]
        ensures { Where self.now (λ g certified runs. (c : ℕ) → c < MOST_CLIENTS → slice_index result.now c ≡ updates_of c (executed_of g certified runs)) }
    {
        &self.counts
    }

    /// How many numbers' rows were taken.
    pub fn numbers(&self) -> u64
        ensures { result ≡ self.now.numbers }
    {
        self.numbers
    }

    /// How far the rows taken make the requests of each master eligible.
    pub fn reach(&self) -> Reach
        ensures { Where self.now (λ g certified runs. TellsEach result.numbers (rules.reach g runs)) }
    {
        self.reach
    }

    /// The request whose certificate the order waits for, as its master and its number. None exactly where all
    /// eligible requests are certified.
    pub fn waiting_for(&self) -> Option<(u32, u64)>
        ensures { Where self.now (λ g certified runs. requested result ≡ waiting_of g certified runs) }
    {
        if self.at < self.requests.len() {
            Some(self.requests[self.at])
        } else {
            None
        }
    }
}
