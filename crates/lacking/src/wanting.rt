ghost use Rattle.std.specs.Prelude.{◌≡◌, ◌+◌, ◌<◌, ◌%◌, ◌^◌, ◌||◌, Bool, ℕ, List, nat_eq, nat_lt, if◌then◌else◌};
ghost use Rattle.message_types.specs.declared.body.Body.{Body};
ghost use Rattle.protocol_rules.specs.declared.facts.OrderFact.{OrderFact};
ghost use Rattle.protocol_rules.specs.Group.{Group};
ghost use Rattle.protocol_rules.specs.declared.limits.TheConstants.{LONG_WAIT, BLIND_STEP};
ghost use Rattle.protocol_rules.specs.Lacking as rule;
ghost use Rattle.lacking.specs.Stands.{IsStanding};

use protocol_rules::{BLIND_STEP, LONG_WAIT};

/// Where a master stands with the numbers.
#[derive(Clone, Copy)]
pub struct Standing {
    /// Up to which number all are ordered.
    pub gapless: u64,
    /// How far `f + 1` masters have come.
    pub some_come_to: u64,
    /// The base of the view's plan, 0 where the view isn't open.
    pub base: u64,
    /// Whether the last number ordered had to be asked for, and the next one wasn't asked for yet.
    pub is_next_after_ask: bool,
}

/// How far a master wants numbers where it has waited so long and there were `now` ticks: 0 where it wants none.
pub fn wanted_to(standing: Standing, waiting: u64, now: u64) -> u64
    requires { standing.gapless < 2 ^ 32 }
    ensures { (g : Group) (facts : List OrderFact) (said : List Body) (v : ℕ) (is_open : Bool)
        → IsStanding g facts said v is_open standing → result ≡ rule.wanted_to g facts said v is_open waiting now }
{
    let others = standing.some_come_to.max(standing.base);
    let far = where_so(is_behind(standing, waiting), others);
    let next = where_so(is_next_wanted(standing, waiting, now), standing.gapless + 1);
    far.max(next)
}

/// Whether it wants the numbers that others have.
fn is_behind(standing: Standing, waiting: u64) -> bool
    ensures { result ≡ (nat_lt LONG_WAIT waiting || nat_lt standing.gapless standing.base) }
{
    waiting > LONG_WAIT || standing.gapless < standing.base
}

/// Whether it wants the next number, even where nobody is known to have it.
fn is_next_wanted(standing: Standing, waiting: u64, now: u64) -> bool
    ensures { result ≡ (nat_lt LONG_WAIT waiting || (nat_eq (now % BLIND_STEP) 0 || standing.is_next_after_ask)) }
{
    waiting > LONG_WAIT || now % BLIND_STEP == 0 || standing.is_next_after_ask
}

fn where_so(is_so: bool, number: u64) -> u64
    ensures { result ≡ (if is_so then number else 0) }
{
    if is_so { number } else { 0 }
}
