ghost use Rattle.std.specs.Prelude.{◌≡◌, ◌≤◌, ◌&&◌, ℕ, Bool, List, [], OnErr, IfOk, length, take};
ghost use Rattle.std.specs.Option.{option_to_list};
ghost use Rattle.std.specs.Str.{bytes_eq};
ghost use Rattle.message_types.specs.declared.signed.Signed.{Signed as SignedWord};
ghost use Rattle.message_types.specs.declared.body.Body.{Body as Word};
ghost use Rattle.protocol_rules.specs.Group.{Group, group_of};
ghost use Rattle.protocol_rules.specs.declared.facts.OrderFact.{OrderFact as Fact};
ghost use Rattle.protocol_rules.specs.Matrix.{reach};
ghost use Rattle.protocol_rules.specs.Order.{ordered_run};
ghost use Rattle.protocol_rules.specs.Turns.{is_slow_beat};
ghost use Rattle.protocol_rules.specs.Master.{summaries_due, summary_again_due};
ghost use Rattle.summary_matrix.specs.Held.{TellsEach};
ghost use Rattle.leader_proposals.specs.Saying.{IsSummaryOf, Says, TellsVector};

use message_types::{Body, PoSummary};
use plain_lists::{Items, Vector, Want};
use quorum_sets::Sizes;
use std::alloc::Global;
use std::marker::Model;
use summary_matrix::Reach;
use summary_matrix::reach::leading;

/// The vector that a master summed up last, at first of zeros.
#[derive(Drop)]
pub struct Summary {
    alloc: Global,
    sizes: Sizes,
    last: Reach,
}

impl Model for Summary {
    ghost use Rattle.std.specs.Prelude.{take};
    ghost use Rattle.leader_proposals.specs.Saying.{SummedUp};

    ghost Value = { SummedUp };

    ghost view = { λ s. record { masters = s.sizes.n; numbers = take s.sizes.n s.last.numbers } };
}

impl Summary {
    /// Where no summary was said.
    pub fn new(alloc: Global, sizes: Sizes) -> Summary
        ensures { (clients : ℕ) → IsSummaryOf (group_of sizes clients) result [] }
    {
        Summary {
            alloc,
            sizes,
            last: Reach::none(),
        }
    }

    /// The summary due at an event where the requests of each master are certified up to these numbers: at a tick,
    /// where they aren't those said last. It counts as said from then on.
    pub fn due(&mut self, numbers: &Reach, at_tick: bool) -> Result<Option<Body>, Want>
        ensures due { IfOk result (λ answer. (g : Group) (known : List (SignedWord Word)) (said : List Word)
            → IsSummaryOf g self.old said → TellsVector g known numbers.now.numbers → option_to_list answer ≡ summaries_due g known said at_tick) }
        ensures said { IfOk result (λ answer. Says self.old self.new (option_to_list answer)) }
        ensures refused { OnErr result (self.new ≡ self.old) }
    {
        if !at_tick || is_same(numbers, &self.last, &self.sizes) {
            return Ok(None);
        }
        let numbers_now = vector_of(self.alloc, numbers, &self.sizes)?;
        self.last = *numbers;
        Ok(Some(Body::PoSummary(PoSummary {
            numbers: numbers_now,
        })))
    }

    /// The summary said last, again: at a beat at which it tells of more than `ordered`, which is how far the numbers ordered
    /// without a gap make the requests of each master eligible. It may have been lost on the way to masters that were away.
    pub fn due_again(&self, ordered: &Reach, at_beat: bool) -> Result<Option<Body>, Want>
        ensures due { IfOk result (λ answer. (g : Group) (facts : List Fact) (said : List Word) (now : ℕ) (at_tick : Bool)
            → IsSummaryOf g self.now said → TellsEach ordered.now.numbers (reach g (ordered_run g facts)) → at_beat ≡ (at_tick && is_slow_beat now)
            → option_to_list answer ≡ summary_again_due g facts said now at_tick) }
        ensures said { IfOk result (λ answer. Says self.now self.now (option_to_list answer)) }
    {
        if !at_beat || !self.last.exceeds(ordered, self.sizes.n) {
            return Ok(None);
        }
        let numbers = vector_of(self.alloc, &self.last, &self.sizes)?;
        Ok(Some(Body::PoSummary(PoSummary { numbers })))
    }
}

/// Whether two reaches are the same for all masters of a group.
fn is_same(one: &Reach, other: &Reach, sizes: &Sizes) -> bool
    ensures same { result ≡ bytes_eq (take sizes.now.n one.now.numbers) (take sizes.now.n other.now.numbers) }
    ensures places { sizes.now.n ≤ length one.now.numbers }
{
    let masters = sizes.n as usize;
    leading(&one.numbers, masters) == leading(&other.numbers, masters)
}

/// The numbers of a group's masters as a vector.
fn vector_of(alloc: Global, reach: &Reach, sizes: &Sizes) -> Result<Vector, Want>
    ensures { IfOk result (λ vector. vector ≡ take sizes.now.n reach.now.numbers) }
{
    let numbers = leading(&reach.numbers, sizes.n as usize);
    Ok(Items::from_vec(alloc, Vec::from_slice(alloc, numbers)?))
}
