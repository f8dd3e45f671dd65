ghost use Rattle.std.specs.Prelude.{◌≡◌, ◌≤◌, ◌%◌, ◌&&◌, [], nat_eq, reverse, if◌then◌else◌};
ghost use Rattle.quorum_sets.specs.declared.limits.TheConstants.{MOST_MASTERS};
ghost use Rattle.protocol_rules.specs.Group.{Group};
ghost use Rattle.protocol_rules.specs.declared.limits.TheConstants.{SHOWN_STEP};
ghost use Rattle.lacking.specs.Earlier.{IsShownOf, IsTold, Where, TellsBelow};
ghost use Rattle.protocol_rules.specs.Lacking.{shown_before};
ghost use Rattle.protocol_rules.specs.Patience.{ticks_in};

use protocol_rules::SHOWN_STEP;
use std::marker::Model;
use summary_matrix::Reach;

/// What `f + 1` of a master's latest summaries had certified at the last tick that is a multiple of 4, and at the last one
/// before the present moment.
#[derive(Drop)]
pub struct ShownBefore {
    latest: Reach,
    before: Reach,
}

impl Model for ShownBefore {
    ghost use Rattle.lacking.specs.Earlier.{EarlierState};

    ghost Value = { EarlierState };

    ghost view = { λ s. record { latest = s.latest.numbers; before = s.before.numbers } };
}

impl ShownBefore {
    /// Where there was no moment.
    pub fn new() -> ShownBefore
        ensures { (g : Group) → g.n ≤ MOST_MASTERS → IsShownOf g result [] }
    {
        ShownBefore {
            latest: Reach::none(),
            before: Reach::none(),
        }
    }

    /// Is told of the next moment: how many ticks there are with it, whether it is one, and what `f + 1` of the latest
    /// summaries have certified at it.
    pub fn see(&mut self, now: u64, at_tick: bool, shown: &Reach)
        ensures { IsTold self.old self.new now at_tick shown.now.numbers }
    {
        self.before = self.latest;
        self.latest = kept_at(now, at_tick, &self.latest, shown);
    }

    /// What they had certified at the last tick that is a multiple of 4, before the present moment: nothing where there was
    /// none.
    pub fn before(&self) -> Reach
        ensures { Where self.now (λ g moments. TellsBelow g.n result.numbers (shown_before (reverse moments) (ticks_in moments))) }
    {
        self.before
    }
}

fn kept_at(now: u64, at_tick: bool, latest: &Reach, shown: &Reach) -> Reach
    ensures { result ≡ (if at_tick && nat_eq (now % SHOWN_STEP) 0 then shown.now else latest.now) }
{
    if at_tick && now % SHOWN_STEP == 0 {
        *shown
    } else {
        *latest
    }
}
