ghost use Rattle.std.specs.Prelude.{◌≡◌, ◌<◌, ◌≤◌, slice_index};
ghost use Rattle.std.specs.VecDeque.{deque_len, deque_capacity};
ghost use Rattle.protocol_rules.specs.Patience.{from_first};
ghost use Rattle.quorum_sets.specs.declared.limits.TheConstants.{MOST_MASTERS};
ghost use Rattle.leader_wait.specs.Waiting.{IsInTime, is_unmet, first_since, ends_with, starts_met, noted};

use std::collections::VecDeque;
use summary_matrix::Reach;

/// How far requests were eligible at a moment, by master, and how many ticks there were before it.
#[derive(Clone, Copy)]
pub struct Demand {
    pub before: u64,
    pub eligible: Reach,
}

/// Puts a demand in last, unless the last one is for the same. Those of another view are let go before.
pub(crate) fn note(demands: &mut VecDeque<Demand>, is_same_view: bool, demand: Demand)
    requires { deque_len demands.old < deque_capacity demands.old }
    ensures { demands.new.items ≡ noted is_same_view demands.old.items demand }
{
    if !is_same_view {
        demands.clear();
        demands.push_back_reserved(demand);
        return;
    }
    if is_last(demands, &demand.eligible) {
        return;
    }
    demands.push_back_reserved(demand);
}

fn is_last(demands: &VecDeque<Demand>, eligible: &Reach) -> bool
    ensures { result ≡ ends_with demands.now.items eligible.now.numbers }
{
    match demands.back() {
        Some(last) => last.eligible.numbers == eligible.numbers,
        None => false,
    }
}

/// Lets the first demands go as long as all of them is ordered.
pub(crate) fn leave_met(demands: &mut VecDeque<Demand>, reach: &Reach, masters: u32)
    requires { masters ≤ MOST_MASTERS }
    ensures { demands.new.items ≡ from_first (is_unmet masters (slice_index reach.now.numbers)) demands.old.items }
{
    while is_first_met(demands, reach, masters) {
        demands.pop_front();
    }
}

fn is_first_met(demands: &VecDeque<Demand>, reach: &Reach, masters: u32) -> bool
    requires { masters ≤ MOST_MASTERS }
    ensures { result ≡ starts_met masters (slice_index reach.now.numbers) demands.now.items }
{
    match demands.front() {
        Some(demand) => !demand.eligible.exceeds(reach, masters),
        None => false,
    }
}

/// The ticks since the first demand, 0 where there is none.
pub(crate) fn since_first(demands: &VecDeque<Demand>, now: u64) -> u64
    requires { IsInTime now demands.now.items }
    ensures { result ≡ first_since now demands.now.items }
{
    match demands.front() {
        Some(demand) => now - demand.before,
        None => 0,
    }
}
