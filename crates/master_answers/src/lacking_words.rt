ghost use Rattle.std.specs.Prelude.{◌≡◌, ◌<◌, ◌≤◌, ◌∷◌, ◌++◌, ℕ, [], IfOk, OnOk, true, false, is_some, map, max, min, slice_index, if◌then◌else◌};
ghost use Rattle.std.specs.List.{list_all, list_any, flat_map};
ghost use Rattle.quorum_sets.specs.Masters.{numbers_below};
ghost use Rattle.protocol_rules.specs.Facts.{facts_of};
ghost use Rattle.protocol_rules.specs.Order.{ordered};
ghost use Rattle.protocol_rules.specs.Views.{view as view_of, is_open as is_open_view};
ghost use Rattle.protocol_rules.specs.Patience.{ticks_in};
ghost use Rattle.protocol_rules.specs.Lacking.{requests_wanted_to, requests_lacking_of, numbers_lacking as numbers_lacked};
ghost use Rattle.protocol_rules.specs.Lacking as rule;
ghost use Rattle.global_order.specs.OrderState as order_at;
ghost use Rattle.reconcile.specs.declared.wanted.Wanted.TheVariants.{Request, Number};
ghost use Rattle.lacking.specs.Stands.{IsStanding};
ghost use Rattle.master_answers.specs.Asked.{is_request};
ghost use Rattle.master_knowledge.specs.Knows.{Where, IsKnowledge, IsCaughtUp};

use global_order::Order;
use lacking::{Standing, wanted_to};
use master_knowledge::Knowledge;
use plain_lists::Want;
use protocol_rules::{MOST_NUMBER, MOST_NUMBERS_ASKED, SHOWN_STEP};
use quorum_sets::{MASTER_PLACES, MOST_MASTERS};
use reconcile::{Wanted, requests_lacking};
use summary_matrix::Reach;

/// What a master lacks: requests by master and number, and numbers from the least on.
#[derive(Drop)]
pub(crate) struct Lacking {
    pub requests: Vec<Wanted>,
    pub numbers: Vec<Wanted>,
}

/// What it lacks at a tick, where it has waited for so many ticks of the `now` that it had. Between ticks nothing is looked
/// for.
pub(crate) fn lacking_at(
    knowledge: &Knowledge,
    waiting: u64,
    now: u64,
    at_tick: bool,
) -> Result<Lacking, Want>
    requires { IsKnowledge knowledge.now }
    ensures requests { IfOk result (λ lacking. list_all is_request lacking.requests.items ≡ true) }
    ensures numbers { IfOk result (λ lacking. list_any is_request lacking.numbers.items ≡ false) }
    ensures requests_lacking { IfOk result (λ lacking. Where knowledge.now (λ g me taken known past said. at_tick ≡ true → IsCaughtUp g knowledge.now known → now ≡ ticks_in past.moments
        → lacking.requests.items ≡ map (λ r. Request r.j r.k) (flat_map (requests_lacking_of g known (facts_of g known) past.moments now) (numbers_below g.n)))) }
    ensures numbers_lacking { IfOk result (λ lacking. Where knowledge.now (λ g me taken known past said. at_tick ≡ true
        → lacking.numbers.items ≡ map Number (numbers_lacked g (facts_of g known) said (view_of g known) (is_open_view g known) waiting now))) }
{
    if !at_tick {
        return Ok(Lacking {
            requests: Vec::new(knowledge.alloc),
            numbers: Vec::new(knowledge.alloc),
        });
    }
    let requests = lacking_requests(knowledge, now)?;
    let numbers = lacking_numbers(knowledge, waiting, now)?;
    Ok(Lacking { requests, numbers })
}

/// The requests that a master lacks where it had `now` ticks, by master and number.
fn lacking_requests(knowledge: &Knowledge, now: u64) -> Result<Vec<Wanted>, Want>
    requires { IsKnowledge knowledge.now }
    ensures requests { IfOk result (λ list. list_all is_request list.items ≡ true) }
    ensures lacking { IfOk result (λ list. Where knowledge.now (λ g me taken known past said. IsCaughtUp g knowledge.now known → now ≡ ticks_in past.moments
        → list.items ≡ map (λ r. Request r.j r.k) (flat_map (requests_lacking_of g known (facts_of g known) past.moments now) (numbers_below g.n)))) }
{
    let reach = requests_wanted(knowledge, now);
    requests_lacking(
        knowledge.alloc,
        &knowledge.preorder,
        &knowledge.sizes,
        &reach.numbers,
    )
}

/// How far it wants the requests of each master: as far as the ordered numbers make them eligible, and at each 4th tick as
/// far as `f + 1` summaries had them four ticks before.
fn requests_wanted(knowledge: &Knowledge, now: u64) -> Reach
    ensures { Where knowledge.now (λ g me taken known past said. IsCaughtUp g knowledge.now known → now ≡ ticks_in past.moments
        → (j : ℕ) → j < g.n → slice_index result.numbers j ≡ requests_wanted_to g (facts_of g known) past.moments now j) }
{
    let mut reach = knowledge.run.reach();
    raise_if(
        &mut reach,
        now % SHOWN_STEP == 0,
        &knowledge.earlier.before(),
    );
    capped(&reach)
}

fn raise_if(reach: &mut Reach, is_so: bool, other: &Reach)
    ensures { (j : ℕ) → j < MOST_MASTERS → slice_index reach.new.numbers j ≡ max (slice_index reach.old.numbers j) (if is_so then slice_index other.now.numbers j else 0) }
{
    if is_so {
        reach.raise(other);
    }
}

/// No number above the greatest that there may be.
fn capped(reach: &Reach) -> Reach
    ensures { (j : ℕ) → j < MOST_MASTERS → slice_index result.numbers j ≡ min MOST_NUMBER (slice_index reach.now.numbers j) }
{
    let mut limited = *reach;
    for place in 0..MASTER_PLACES {
        limited.numbers[place] = limited.numbers[place].min(MOST_NUMBER);
    }
    limited
}

/// The numbers that it lacks where it has waited for so many ticks, from the least on, at most 64.
fn lacking_numbers(knowledge: &Knowledge, waiting: u64, now: u64) -> Result<Vec<Wanted>, Want>
    requires { IsKnowledge knowledge.now }
    ensures numbers { IfOk result (λ list. list_any is_request list.items ≡ false) }
    ensures lacking { IfOk result (λ list. Where knowledge.now (λ g me taken known past said.
        list.items ≡ map Number (numbers_lacked g (facts_of g known) said (view_of g known) (is_open_view g known) waiting now))) }
{
    let standing = standing_of(knowledge);
    let gapless = standing.gapless;
    let end = wanted_to(standing, waiting, now).min(MOST_NUMBER);
    let limit = end.min(gapless + MOST_NUMBERS_ASKED);
    let mut numbers = Vec::new(knowledge.alloc);
    for before in gapless..limit {
        push_unless_ordered(&mut numbers, &knowledge.order, before + 1)?;
    }
    Ok(numbers)
}

/// Where it stands with the numbers.
fn standing_of(knowledge: &Knowledge) -> Standing
    requires { IsKnowledge knowledge.now }
    ensures stands { Where knowledge.now (λ g me taken known past said. IsStanding g (facts_of g known) said (view_of g known) (is_open_view g known) result) }
    ensures few { result.gapless ≤ MOST_NUMBER }
{
    let gapless = knowledge.order.gapless();
    let had_asked = knowledge.asks.has_asked(&Wanted::Number { s: gapless });
    let has_asked = knowledge.asks.has_asked(&Wanted::Number { s: gapless + 1 });
    Standing {
        gapless,
        some_come_to: knowledge.furthest.some_come_to(),
        base: open_base(knowledge),
        is_next_after_ask: had_asked && !has_asked,
    }
}

/// The base of its view's plan, 0 where the view isn't open.
fn open_base(knowledge: &Knowledge) -> u64
    ensures { Where knowledge.now (λ g me taken known past said. result ≡ rule.open_base (facts_of g known) (view_of g known) (is_open_view g known)) }
{
    if !knowledge.views.is_open() {
        return 0;
    }
    match knowledge.order.plan(knowledge.views.view()) {
        Some(plan) => plan.base,
        None => 0,
    }
}

fn push_unless_ordered(numbers: &mut Vec<Wanted>, order: &Order, s: u64) -> Result<(), Want>
    ensures { OnOk result (order_at.Where order.now (λ g facts said.
        numbers.new.items ≡ numbers.old.items ++ (if is_some (ordered g facts s) then [] else Number s ∷ []))) }
{
    if order.ordered(s).is_none() {
        numbers.push(Wanted::Number { s })?;
    }
    Ok(())
}
