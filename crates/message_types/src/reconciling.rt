ghost use Rattle.std.specs.Prelude.{◌≡◌, ◌↔◌, IsTrue, IfOk};

use crate::ordering::{Commit, Rows};
use crate::preordering::{PoAck, PoRequest};
use crate::signed::Signed;
use plain_lists::{Copied, Items, Same, Want};

/// A master asks for request number `k` of master `j`.
#[derive(Clone, Copy, PartialEq, Eq)]
pub struct AskUpdate {
    pub j: u32,
    pub k: u64,
}

impl Same for AskUpdate {
    fn is_same(&self, other: &Self) -> bool {
        *self == *other
    }
}

/// A request with the acknowledgements of a quorum.
pub struct Give {
    pub request: Signed<PoRequest>,
    pub acks: Items<Signed<PoAck>>,
}

// Taken apart here once, so that no crate above proves it again.
impl Drop for Give {
    fn drop(self) {
        let Give {
            request: _,
            acks: _,
        } = self;
    }
}

impl Copied for Give {
    fn copy(&self) -> Result<Self, Want> {
        Ok(Give {
            request: self.request.copy()?,
            acks: self.acks.copy()?,
        })
    }
}

impl Same for Give {
    fn is_same(&self, other: &Self) -> bool {
        self.request.is_same(&other.request) && self.acks.is_same(&other.acks)
    }
}

/// A master asks for the rows of number `s`.
#[derive(Clone, Copy, PartialEq, Eq)]
pub struct AskOrder {
    pub s: u64,
}

impl Same for AskOrder {
    fn is_same(&self, other: &Self) -> bool {
        *self == *other
    }
}

/// The rows of number `s` with the commits of a quorum in view `v`.
pub struct GiveOrdered {
    pub s: u64,
    pub v: u64,
    pub rows: Rows,
    pub commits: Items<Signed<Commit>>,
}

// Taken apart here once, so that no crate above proves it again.
impl Drop for GiveOrdered {
    fn drop(self) {
        let GiveOrdered {
            s: _,
            v: _,
            rows: _,
            commits: _,
        } = self;
    }
}

impl Copied for GiveOrdered {
    fn copy(&self) -> Result<Self, Want> {
        Ok(GiveOrdered {
            s: self.s,
            v: self.v,
            rows: self.rows.copy()?,
            commits: self.commits.copy()?,
        })
    }
}

impl Same for GiveOrdered {
    fn is_same(&self, other: &Self) -> bool {
        self.s == other.s
            && self.v == other.v
            && self.rows.is_same(&other.rows)
            && self.commits.is_same(&other.commits)
    }
}
