//! What the lock of an actor holds moves to the thread that takes it. (Rattle shows this by itself of each type that reaches no
//! type that holds itself, as the tree of a rule does.)

use scenario_file::Scenario;
use station_turns::{Naming, OwnStation, Owner, Station};
use std::sync::Mutex;
use world_history::{Bench, Kept};

fn moves<T: Send>(_value: &T) {}

fn lends<T: Sync>(_value: &T) {}

/// A scenario may be given to another thread, and lent to several.
pub fn scenario_may_cross(scenario: &Scenario) {
    moves(scenario);
    lends(scenario);
}

/// An actor may be given to another thread, and lent to several.
pub fn bench_may_cross(bench: &Bench) {
    moves(bench);
    lends(bench);
}

/// So may an actor with its keeper.
pub fn kept_may_cross(kept: &Kept) {
    moves(kept);
    lends(kept);
}

/// An actor of a run may be given to another thread. (Its seat can't be shared.)
pub fn station_may_move<N: Naming + Send + Sync>(station: &Station<N>) {
    moves(station);
}

/// So may the station of one actor, and its lock may be lent to several besides.
pub fn lock_may_cross<N: Naming + Send + Sync, A: Owner + Send + Sync>(
    station: &Mutex<OwnStation<N, A>>,
) {
    moves(station);
    lends(station);
}
