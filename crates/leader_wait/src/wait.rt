ghost use Rattle.std.specs.Prelude.{◌≡◌, ◌+◌, ◌<◌, ◌^◌, ℕ, [], IsTrue, OnOk, OnErr, if◌then◌else◌};
ghost use Rattle.protocol_rules.specs.Group.{group_of};
ghost use Rattle.protocol_rules.specs.Patience.{wait};
ghost use Rattle.leader_wait.specs.Waiting.{IsWaitOf, IsTold, Where, Keeps, TellsBelow};

use crate::demands::{Demand, leave_met, note, since_first};
use plain_lists::Want;
use quorum_sets::Sizes;
use std::alloc::Global;
use std::collections::VecDeque;
use std::marker::Model;
use summary_matrix::Reach;

/// How long one master waits for its leader.
pub struct LeaderWait {
    sizes: Sizes,
    ticks: u64,
    view: u64,
    /// What became eligible in the present view, from the first that wasn't ordered when it was last asked for.
    demands: VecDeque<Demand>,
}

// Taken apart here once, so that no crate above proves it again.
impl Drop for LeaderWait {
    fn drop(self) {
        let LeaderWait {
            sizes: _,
            ticks: _,
            view: _,
            demands: _,
        } = self;
    }
}

impl Model for LeaderWait {
    ghost use Rattle.std.specs.Prelude.{◌≤◌};
    ghost use Rattle.protocol_rules.specs.Group.{group_of};
    ghost use Rattle.protocol_rules.specs.declared.limits.TheConstants.{MOST_TICKS};
    ghost use Rattle.leader_wait.specs.Waiting.{Waiting, IsInTime};

    ghost Value = { Waiting };

    ghost view = { λ w. record { group = group_of w.sizes 0; ticks = w.ticks; view = w.view; demands = w.demands.items } };

    ghost invariant = { λ w. (w.ticks ≤ MOST_TICKS) × IsInTime w.ticks w.demands.items };
}

impl LeaderWait {
    /// The wait of a master that was told of no moment.
    pub fn new(alloc: Global, sizes: Sizes) -> LeaderWait
        ensures ticks { result.ticks ≡ 0 }
        ensures nothing { (clients : ℕ) (ordered : ℕ → ℕ) → IsWaitOf (group_of sizes clients) result ordered [] }
    {
        LeaderWait {
            sizes,
            ticks: 0,
            view: 0,
            demands: VecDeque::new(alloc),
        }
    }

    /// Is told of the next moment: whether it is a tick, the view at it, and how far the latest summaries make the
    /// requests of each master eligible.
    pub fn see(&mut self, at_tick: bool, view: u64, eligible: &Reach) -> Result<(), Want>
        requires { IsTrue at_tick → self.old.ticks < 2 ^ 32 }
        ensures ticks { OnOk result (self.new.ticks ≡ self.old.ticks + (if at_tick then 1 else 0)) }
        ensures view { OnOk result (self.new.view ≡ view) }
        ensures told { OnOk result (IsTold self.old self.new at_tick view eligible.now.numbers) }
        ensures err { OnErr result (self.new ≡ self.old) }
    {
        self.demands.reserve(1)?;
        let demand = Demand {
            before: self.ticks,
            eligible: *eligible,
        };
        note(&mut self.demands, view == self.view, demand);
        self.ticks += u64::from(at_tick);
        self.view = view;
        Ok(())
    }

    /// How long the master waits, in ticks, in the view of the last moment, where the requests of each master are ordered
    /// so far. It looks only at what was eligible and not ordered when it was last asked.
    pub fn ticks(&mut self, reach: &Reach) -> u64
        ensures waiting { Where self.old (λ g ordered moments. TellsBelow g.n reach.now.numbers ordered
            → result ≡ wait g self.old.view ordered moments) }
        ensures kept { Keeps self.old self.new reach.now.numbers }
        ensures ticks { self.new.ticks ≡ self.old.ticks }
        ensures view { self.new.view ≡ self.old.view }
    {
        leave_met(&mut self.demands, reach, self.sizes.n);
        since_first(&self.demands, self.ticks)
    }
}
