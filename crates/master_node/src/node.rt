ghost use Rattle.std.specs.Prelude.{◌≡◌, ◌++◌, ◌<◌, ◌^◌, ◌∷◌, [], OnOk, OnErr, IfOk, IsErr, List, Bool, true, false, Option, Some, None, option_copied};
ghost use Rattle.message_types.specs.declared.signed.Signed.{Signed as SignedWord};
ghost use Rattle.message_types.specs.declared.body.Body.{Body as Word};
ghost use Rattle.protocol_rules.specs.Preorder.{certified};
ghost use Rattle.protocol_rules.specs.Views as rules;
ghost use Rattle.protocol_rules.specs.Master.{Heard, executed};
ghost use Rattle.history_rules.specs.Legal.{known_of};
ghost use Rattle.words_in_place.specs.Laws.{ticks_heard};
ghost use Rattle.scenario_file.specs.Reading.{contents};
ghost use Rattle.scenario_file.specs.Valid.{IsScenario};
ghost use Rattle.master_knowledge.specs.Whole.{is_whole};
ghost use Rattle.master_node.specs.Charge.{Charge, IsChargeOf, leaves_left, says_at};
ghost use Rattle.master_node.specs.Running.{IsRunning, HasSpoken, AreItsFrames, group_in, ticks_in, leaves_in};
ghost use Rattle.master_node.specs.Node.{NodeState, IsWorking};

use crate::running::Running;
use message_types::{Body, Frame, Update};
use plain_lists::Want;
use scenario_file::Scenario;
use std::alloc::Global;
use std::marker::Model;

/// One correct master. It signs nothing: who drives it signs what it says, and hands it the frames.
pub struct Node {
    running: Running,
    is_spent: bool,
}

// Taken apart here once, so that no crate above proves it again.
impl Drop for Node {
    fn drop(self) {
        let Node {
            running: _,
            is_spent: _,
        } = self;
    }
}

impl Model for Node {
    ghost use Rattle.std.specs.Coded.{codes};
    ghost use Rattle.master_node.specs.contracts.running.Running as running_type;
    ghost use Rattle.master_node.specs.Node.{NodeState};

    ghost Value = { NodeState };

    ghost coded = { Prim.hlevel (codes, running_type.the_row.coded) };

    ghost view = { λ node. record { running = node.running; is_spent = node.is_spent } };
}

impl Node {
    /// Master `number` of a scenario, with so many leaves to sign with, before its first event.
    pub fn make(alloc: Global, scenario: &Scenario, number: u32, leaves: u64) -> Result<Node, Want>
        requires valid { IsScenario (contents scenario.now) }
        requires number { number < scenario.now.sizes.n }
        ensures made { IfOk result (λ node. (c : Charge) → IsChargeOf scenario.now number leaves c → IsRunning c node.running []) }
        ensures working { IfOk result (λ node. node.is_spent ≡ false) }
        ensures some { IfOk result (λ node. IsWorking node) }
    {
        Ok(Node {
            running: Running::start(alloc, scenario, number, leaves)?,
            is_spent: false,
        })
    }

    /// Takes a frame, and gives what the master says then. After want of memory the node is spent, and answers `Want` from
    /// then on.
    pub fn hear(&mut self, frame: &Frame) -> Result<Vec<Body>, Want>
        requires working { IsWorking self.old }
        requires whole { self.old.is_spent ≡ false → is_whole (group_in self.old.running) frame.now ≡ true }
        ensures said { IfOk result (λ bodies. (c : Charge) (before : List Heard) → IsRunning c self.old.running before
            → bodies.items ≡ says_at c before (Some frame.now) false) }
        ensures spoken { OnOk result ((c : Charge) (before : List Heard) → IsRunning c self.old.running before
            → HasSpoken c self.new.running before (Some frame.now) false) }
        ensures working { OnOk result (self.new.is_spent ≡ false) }
        ensures spent { self.old.is_spent ≡ true → IsErr result }
        ensures refused { OnErr result (self.new.is_spent ≡ true) }
    {
        if self.is_spent {
            return Err(Want);
        }
        self.is_spent = true;
        let bodies = self.running.hear(frame)?;
        self.is_spent = false;
        Ok(bodies)
    }

    /// Has a tick, and gives what the master says then. After want of memory the node is spent, and answers `Want` from then
    /// on.
    pub fn tick(&mut self) -> Result<Vec<Body>, Want>
        requires working { IsWorking self.old }
        requires ticks { self.old.is_spent ≡ false → ticks_in self.old.running < 2 ^ 32 }
        ensures said { IfOk result (λ bodies. (c : Charge) (before : List Heard) → IsRunning c self.old.running before
            → bodies.items ≡ says_at c before None true) }
        ensures spoken { OnOk result ((c : Charge) (before : List Heard) → IsRunning c self.old.running before
            → HasSpoken c self.new.running before None true) }
        ensures working { OnOk result (self.new.is_spent ≡ false) }
        ensures spent { self.old.is_spent ≡ true → IsErr result }
        ensures refused { OnErr result (self.new.is_spent ≡ true) }
    {
        if self.is_spent {
            return Err(Want);
        }
        self.is_spent = true;
        let bodies = self.running.tick()?;
        self.is_spent = false;
        Ok(bodies)
    }

    /// Hands the master the frames of what it just said: it knows them, with all their parts, from its next event on. After
    /// want of memory the node is spent.
    pub fn signed(&mut self, frames: &[Frame]) -> Result<(), Want>
        ensures running { OnOk result ((c : Charge) (before : List Heard) (took : Option (SignedWord Word)) (at_tick : Bool)
            → HasSpoken c self.old.running before took at_tick → AreItsFrames c before took at_tick frames.now
            → IsRunning c self.new.running (before ++ record { took = took; is_tick = at_tick; said = frames.now } ∷ [])) }
        ensures working { OnOk result (self.new.is_spent ≡ false) }
        ensures spent { self.old.is_spent ≡ true → IsErr result }
        ensures refused { OnErr result (self.new.is_spent ≡ true) }
    {
        if self.is_spent {
            return Err(Want);
        }
        self.is_spent = true;
        self.running.signed(frames)?;
        self.is_spent = false;
        Ok(())
    }

    /// The executed updates, in order.
    pub fn executions(&self) -> &[Update]
        ensures { (c : Charge) (before : List Heard) → IsRunning c self.now.running before → result.now ≡ executed c.group (known_of before) }
    {
        self.running.replica.knowledge.run.list()
    }

    /// The view that the master is in.
    pub fn view(&self) -> u64
        ensures { (c : Charge) (before : List Heard) → IsRunning c self.now.running before → result ≡ rules.view c.group (known_of before) }
    {
        self.running.replica.knowledge.views.view()
    }

    /// How many ticks the master has had.
    pub fn ticks(&self) -> u64
        ensures told { result ≡ ticks_in self.now.running }
        ensures heard { (c : Charge) (before : List Heard) → IsRunning c self.now.running before → result ≡ ticks_heard before }
    {
        self.running.replica.knowledge.measure.ticks()
    }

    /// How many leaves it has left to sign with.
    pub fn leaves(&self) -> u64
        ensures told { result ≡ leaves_in self.now.running }
        ensures left { (c : Charge) (before : List Heard) → IsRunning c self.now.running before → result ≡ leaves_left c before }
    {
        self.running.leaves
    }

    /// The update that is certified as request `k` of master `j`.
    pub fn certified(&self, j: u32, k: u64) -> Option<&Update>
        ensures { (c : Charge) (before : List Heard) → IsRunning c self.now.running before → option_copied result ≡ certified c.group (known_of before) j k }
    {
        self.running.replica.knowledge.preorder.certified(j, k)
    }
}
