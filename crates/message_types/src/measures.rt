ghost use Rattle.std.specs.Prelude.{◌≡◌, ◌↔◌, IsTrue};

use plain_lists::Same;

/// A question for the time of a round trip.
#[derive(Clone, Copy, PartialEq, Eq)]
pub struct Ping {
    pub number: u64,
}

impl Same for Ping {
    fn is_same(&self, other: &Self) -> bool {
        *self == *other
    }
}

/// The answer to a ping of master `to`.
#[derive(Clone, Copy, PartialEq, Eq)]
pub struct Pong {
    pub to: u32,
    pub number: u64,
}

impl Same for Pong {
    fn is_same(&self, other: &Self) -> bool {
        *self == *other
    }
}

/// The ticks that a ping to master `to` and its answer took.
#[derive(Clone, Copy, PartialEq, Eq)]
pub struct Rtt {
    pub to: u32,
    pub number: u64,
    pub ticks: u64,
}

impl Same for Rtt {
    fn is_same(&self, other: &Self) -> bool {
        *self == *other
    }
}

/// The ticks for which a master has waited for the leader of view `v` (Prime's TAT-MEASURE).
#[derive(Clone, Copy, PartialEq, Eq)]
pub struct TatReport {
    pub v: u64,
    pub ticks: u64,
}

impl Same for TatReport {
    fn is_same(&self, other: &Self) -> bool {
        *self == *other
    }
}

/// The ticks that a master finds a correct leader may take in view `v` (Prime's TAT-UB).
#[derive(Clone, Copy, PartialEq, Eq)]
pub struct TatBound {
    pub v: u64,
    pub ticks: u64,
}

impl Same for TatBound {
    fn is_same(&self, other: &Self) -> bool {
        *self == *other
    }
}

/// A vote against the leader of view `v` (Prime's NEW-LEADER).
#[derive(Clone, Copy, PartialEq, Eq)]
pub struct Suspect {
    pub v: u64,
}

impl Same for Suspect {
    fn is_same(&self, other: &Self) -> bool {
        *self == *other
    }
}
