ghost use Rattle.std.specs.Prelude.{◌≡◌, ◌++◌, ◌<◌, ◌^◌, ◌∷◌, [], OnOk, IfOk, List, Bool, true, false, Option, Some, None};
ghost use Rattle.message_types.specs.declared.signed.Signed.{Signed as SignedWord};
ghost use Rattle.message_types.specs.declared.body.Body.{Body as Word};
ghost use Rattle.protocol_rules.specs.Master.{Heard};
ghost use Rattle.master_knowledge.specs.Whole.{is_whole};
ghost use Rattle.master_answers.specs.Asked.{ask_of};
ghost use Rattle.master_points.specs.Orders.{IsPlant};
ghost use Rattle.master_node.specs.Charge.{Charge, IsChargeOf, says_at};
ghost use Rattle.master_node.specs.Running.{IsRunning, IsSomeRunning, HasLearned, IsSomeLearned, IsReady, IsSomeReady, HasSpoken, AreItsFrames, group_in, ticks_in};

use crate::cut::cut;
use crate::execute::apply_all;
use crate::learn::recall_all;
use master_answers::{Ask, ReplicaState, ask_in};
use master_points::Master;
use message_types::{Body, Frame};
use plain_lists::{Items, Want};
use scenario_file::Scenario;
use std::alloc::Global;

/// All that a master keeps while it runs: its parts, the plant after what it executed, the frames that it said at its last
/// event and doesn't know yet, and how many leaves are left.
pub struct Running {
    pub alloc: Global,
    pub replica: ReplicaState,
    pub points: Master,
    pub unheard: Items<Frame>,
    pub leaves: u64,
    pub shared_leaves: bool,
}

// Taken apart here once: what holds it lets go of it by one call.
impl Drop for Running {
    fn drop(self) {
        let Running {
            alloc: _,
            replica: _,
            points: _,
            unheard: _,
            leaves: _,
            shared_leaves: _,
        } = self;
    }
}

impl Running {
    /// Master `number` of a scenario, with so many leaves to sign with, before its first event.
    pub fn start(
        alloc: Global,
        scenario: &Scenario,
        number: u32,
        leaves: u64,
    ) -> Result<Running, Want>
        requires plant { IsPlant scenario.now.plant scenario.now.screens }
        requires number { number < scenario.now.sizes.n }
        ensures { IfOk result (λ kept. (c : Charge) → IsChargeOf scenario.now number leaves c → IsRunning c kept []) }
    {
        let clients = scenario.plant.devices.len() as u32 + scenario.screens;
        let points = Master::make(alloc, &scenario.plant, scenario.screens)?;
        Ok(Running {
            alloc,
            replica: ReplicaState::new(alloc, scenario.sizes, clients, number),
            points,
            unheard: Items::new(alloc),
            leaves,
            shared_leaves: scenario.frames == 2,
        })
    }

    /// Takes a frame, and says what is due then. After want of memory the state is of no use.
    pub fn hear(&mut self, frame: &Frame) -> Result<Vec<Body>, Want>
        requires running { IsSomeRunning self.old }
        requires whole { is_whole (group_in self.old) frame.now ≡ true }
        ensures said { IfOk result (λ bodies. (c : Charge) (before : List Heard) → IsRunning c self.old before → bodies.items ≡ says_at c before (Some frame.now) false) }
        ensures spoken { OnOk result ((c : Charge) (before : List Heard) → IsRunning c self.old before → HasSpoken c self.new before (Some frame.now) false) }
    {
        let done = self.replica.knowledge.run.list().len();
        recall_all(&mut self.replica.knowledge, &self.unheard)?;
        self.unheard = Items::new(self.alloc);
        self.replica.knowledge.hear(frame)?;
        self.go_on(done, ask_in(frame), false)
    }

    /// Has a tick, and says what is due then. After want of memory the state is of no use.
    pub fn tick(&mut self) -> Result<Vec<Body>, Want>
        requires running { IsSomeRunning self.old }
        requires ticks { ticks_in self.old < 2 ^ 32 }
        ensures said { IfOk result (λ bodies. (c : Charge) (before : List Heard) → IsRunning c self.old before → bodies.items ≡ says_at c before None true) }
        ensures spoken { OnOk result ((c : Charge) (before : List Heard) → IsRunning c self.old before → HasSpoken c self.new before None true) }
    {
        let done = self.replica.knowledge.run.list().len();
        recall_all(&mut self.replica.knowledge, &self.unheard)?;
        self.unheard = Items::new(self.alloc);
        self.go_on(done, None, true)
    }

    /// Keeps the frames of what the master just said, until its next event.
    pub fn signed(&mut self, frames: &[Frame]) -> Result<(), Want>
        ensures { OnOk result ((c : Charge) (before : List Heard) (took : Option (SignedWord Word)) (at_tick : Bool)
            → HasSpoken c self.old before took at_tick → AreItsFrames c before took at_tick frames.now
            → IsRunning c self.new (before ++ record { took = took; is_tick = at_tick; said = frames.now } ∷ [])) }
    {
        self.unheard = Items::from_slice(self.alloc, frames)?;
        Ok(())
    }

    /// Executes what the words known make executed, and says what is due at the event, where the frame taken asks for this.
    fn go_on(&mut self, done: usize, asked: Option<Ask>, at_tick: bool) -> Result<Vec<Body>, Want>
        requires learned { IsSomeLearned self.old at_tick done }
        ensures said { IfOk result (λ bodies. (c : Charge) (before : List Heard) (took : Option (SignedWord Word)) → asked ≡ ask_of took → HasLearned c self.old before took at_tick done
            → bodies.items ≡ says_at c before took at_tick) }
        ensures spoken { OnOk result ((c : Charge) (before : List Heard) (took : Option (SignedWord Word)) → asked ≡ ask_of took → HasLearned c self.old before took at_tick done
            → HasSpoken c self.new before took at_tick) }
    {
        self.replica.knowledge.catch_up()?;
        let executed = self.replica.knowledge.run.list();
        apply_all(&mut self.points, &executed[done..])?;
        self.replica.knowledge.tell(at_tick)?;
        self.say(asked, at_tick)
    }

    /// Says what is due, as far as leaves are left for it.
    fn say(&mut self, asked: Option<Ask>, at_tick: bool) -> Result<Vec<Body>, Want>
        requires ready { IsSomeReady self.old at_tick }
        ensures said { IfOk result (λ bodies. (c : Charge) (before : List Heard) (took : Option (SignedWord Word)) → asked ≡ ask_of took → IsReady c self.old before took at_tick
            → bodies.items ≡ says_at c before took at_tick) }
        ensures spoken { OnOk result ((c : Charge) (before : List Heard) (took : Option (SignedWord Word)) → asked ≡ ask_of took → IsReady c self.old before took at_tick
            → HasSpoken c self.new before took at_tick) }
    {
        if self.leaves == 0 {
            return Ok(Vec::new(self.alloc));
        }
        let mut bodies = self.replica.answer(&self.points, asked, at_tick)?;
        let used = cut(&mut bodies, self.leaves, self.shared_leaves);
        self.leaves -= used;
        Ok(bodies)
    }
}
