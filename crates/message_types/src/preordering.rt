ghost use Rattle.std.specs.Prelude.{◌≡◌, ◌↔◌, IsTrue, IfOk};

use crate::signed::Signed;
use crate::updates::Update;
use plain_lists::{Copied, Same, Vector, Want};

/// A master introduces a client's update as its own number `k`, from 1 (Prime's PO-REQUEST).
pub struct PoRequest {
    pub k: u64,
    pub update: Signed<Update>,
}

// Taken apart here once, so that no crate above proves it again.
impl Drop for PoRequest {
    fn drop(self) {
        let PoRequest { k: _, update: _ } = self;
    }
}

impl Copied for PoRequest {
    fn copy(&self) -> Result<Self, Want> {
        Ok(PoRequest {
            k: self.k,
            update: self.update.copy()?,
        })
    }
}

impl Same for PoRequest {
    fn is_same(&self, other: &Self) -> bool {
        self.k == other.k && self.update.is_same(&other.update)
    }
}

/// A master acknowledges request number `k` of master `j`, whose update has this digest (Prime's PO-ACK).
#[derive(Clone, Copy, PartialEq, Eq)]
pub struct PoAck {
    pub j: u32,
    pub k: u64,
    pub digest: [u8; 32],
}

impl Same for PoAck {
    fn is_same(&self, other: &Self) -> bool {
        *self == *other
    }
}

/// How far each master's requests are certified without a gap, as a master knows it (Prime's PO-SUMMARY).
pub struct PoSummary {
    pub numbers: Vector,
}

// Taken apart here once, so that no crate above proves it again.
impl Drop for PoSummary {
    fn drop(self) {
        let PoSummary { numbers: _ } = self;
    }
}

impl Copied for PoSummary {
    fn copy(&self) -> Result<Self, Want> {
        Ok(PoSummary {
            numbers: self.numbers.copy()?,
        })
    }
}

impl Same for PoSummary {
    fn is_same(&self, other: &Self) -> bool {
        self.numbers.is_same(&other.numbers)
    }
}
