ghost use Rattle.std.specs.Prelude.{◌≡◌, ◌<◌, ◌≤◌, ◌^◌, ℕ, List, [], IsTrue, nat_lt, slice_index};
ghost use Rattle.message_types.specs.declared.signed.Signed.{Signed};
ghost use Rattle.message_types.specs.declared.body.Body.{Body};
ghost use Rattle.quorum_sets.specs.declared.limits.TheConstants.{MOST_MASTERS};
ghost use Rattle.protocol_rules.specs.declared.facts.OrderFact.{OrderFact};
ghost use Rattle.protocol_rules.specs.Group.{Group};
ghost use Rattle.protocol_rules.specs.Lacking.{share};
ghost use Rattle.reconcile.specs.Shares.{AreSharesOf, AreTold, things_had, times_answered};

use protocol_rules::{FIRST_SHARE, SHARE_OF_EACH, SHARE_STEP};
use quorum_sets::MASTER_PLACES;
use std::marker::Model;

/// How many asks of each master were answered.
#[derive(Drop)]
pub struct Shares {
    answered: [u64; MASTER_PLACES],
}

impl Model for Shares {
    ghost use Rattle.std.specs.Prelude.{List, ℕ};

    ghost Value = { List ℕ };

    ghost view = { λ s. s.answered };
}

impl Shares {
    /// The shares of a master that answered nothing.
    pub fn new() -> Shares
        ensures { AreSharesOf result [] }
    {
        Shares {
            answered: [0; MASTER_PLACES],
        }
    }

    /// Whether one more ask of a master is within its share, where there were `now` ticks and there are so many things to
    /// be had here.
    pub fn has_room(&self, asker: u32, now: u64, things: u64) -> bool
        requires asker { asker < MOST_MASTERS }
        requires ticks { now ≤ 2 ^ 32 }
        requires things { things ≤ 2 ^ 32 }
        ensures few { IsTrue result → slice_index self.now asker < 2 ^ 40 }
        ensures share { (g : Group) (known : List (Signed Body)) (facts : List OrderFact) (answered : List ℕ)
            → things ≡ things_had g known facts → AreSharesOf self.now answered
            → result ≡ nat_lt (times_answered answered asker) (share g known facts now) }
    {
        self.answered[asker as usize] < FIRST_SHARE + now / SHARE_STEP + SHARE_OF_EACH * things
    }

    /// Is told that an ask of a master was answered.
    pub fn answer(&mut self, asker: u32)
        requires asker { asker < MOST_MASTERS }
        requires room { slice_index self.old asker < 2 ^ 40 }
        ensures { AreTold self.old self.new asker }
    {
        self.answered[asker as usize] += 1;
    }
}
