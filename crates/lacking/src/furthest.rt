ghost use Rattle.std.specs.Prelude.{◌≡◌, ◌<◌, ℕ, [], max, nat_eq, slice_index, if◌then◌else◌};
ghost use Rattle.message_types.specs.declared.signed.Signed.{Signed};
ghost use Rattle.message_types.specs.declared.ordering.Commit.{Commit};
ghost use Rattle.message_types.specs.declared.ordering.Mark.{Mark};
ghost use Rattle.quorum_sets.specs.declared.limits.TheConstants.{MOST_MASTERS};
ghost use Rattle.protocol_rules.specs.declared.facts.OrderFact.TheVariants as fact;
ghost use Rattle.protocol_rules.specs.Group.{group_of};
ghost use Rattle.protocol_rules.specs.Lacking.{some_committed_to};
ghost use Rattle.lacking.specs.Come.{IsFurthestOf, Learns, Where};

use quorum_sets::{MASTER_PLACES, MOST_MASTERS, Sizes};
use std::marker::Model;
use summary_matrix::reach::{greatest_reached, leading};

/// How far each master has come: the greatest number that it committed or marked.
#[derive(Drop)]
pub struct Furthest {
    sizes: Sizes,
    numbers: [u64; MASTER_PLACES],
}

impl Model for Furthest {
    ghost use Rattle.protocol_rules.specs.Group.{group_of};
    ghost use Rattle.lacking.specs.Come.{FurthestState};

    ghost Value = { FurthestState };

    ghost view = { λ m. record { group = group_of m.sizes 0; numbers = m.numbers } };
}

impl Furthest {
    /// Where no commit and no mark is known.
    pub fn new(sizes: Sizes) -> Furthest
        ensures { (clients : ℕ) → IsFurthestOf (group_of sizes clients) result [] }
    {
        Furthest {
            sizes,
            numbers: [0; MASTER_PLACES],
        }
    }

    /// Takes the next commit or mark known: whose it is, and of which number.
    pub fn take(&mut self, signer: u32, s: u64)
        ensures commit { (f : Signed Commit) → f.signer ≡ signer → f.body.s ≡ s → Learns self.old self.new (fact.Commit f) }
        ensures mark { (f : Signed Mark) → f.signer ≡ signer → f.body.s ≡ s → Learns self.old self.new (fact.Mark f) }
    {
        keep_greater(&mut self.numbers, signer, s);
    }

    /// How far `f + 1` masters have come, one of whom is correct.
    pub fn some_come_to(&self) -> u64
        ensures { Where self.now (λ g facts. result ≡ some_committed_to g facts) }
    {
        let numbers = leading(&self.numbers, self.sizes.n as usize);
        greatest_reached(numbers, self.sizes.f + 1)
    }
}

/// Where it is a master's, its figure takes the number if that is greater.
fn keep_greater(numbers: &mut [u64; MASTER_PLACES], signer: u32, s: u64)
    ensures { (j : ℕ) → j < MOST_MASTERS → slice_index numbers.new j ≡ max (slice_index numbers.old j) (if nat_eq signer j then s else 0) }
{
    if signer < MOST_MASTERS {
        let place = signer as usize;
        numbers[place] = numbers[place].max(s);
    }
}
