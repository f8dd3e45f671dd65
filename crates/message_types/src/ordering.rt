ghost use Rattle.std.specs.Prelude.{◌≡◌, ◌↔◌, IsTrue, IfOk};

use crate::preordering::PoSummary;
use crate::signed::Signed;
use plain_lists::{Copied, Items, Same, Vector, Want};

/// One row per master: its vector, or nothing where its summary is missing.
pub type Rows = Items<Vector>;

/// Signed summaries of several masters.
pub type FrameList = Items<Signed<PoSummary>>;

/// The leader of view `v` offers summaries as global number `s` (Prime's PRE-PREPARE).
pub struct PrePrepare {
    pub v: u64,
    pub s: u64,
    pub frames: FrameList,
}

// Taken apart here once, so that no crate above proves it again.
impl Drop for PrePrepare {
    fn drop(self) {
        let PrePrepare {
            v: _,
            s: _,
            frames: _,
        } = self;
    }
}

impl Copied for PrePrepare {
    fn copy(&self) -> Result<Self, Want> {
        Ok(PrePrepare {
            v: self.v,
            s: self.s,
            frames: self.frames.copy()?,
        })
    }
}

impl Same for PrePrepare {
    fn is_same(&self, other: &Self) -> bool {
        self.v == other.v && self.s == other.s && self.frames.is_same(&other.frames)
    }
}

/// A master takes the rows of this digest for number `s` in view `v`.
#[derive(Clone, Copy, PartialEq, Eq)]
pub struct Prepare {
    pub v: u64,
    pub s: u64,
    pub digest: [u8; 32],
}

impl Same for Prepare {
    fn is_same(&self, other: &Self) -> bool {
        *self == *other
    }
}

/// A master knows that a quorum prepared the rows of this digest for number `s` in view `v`.
#[derive(Clone, Copy, PartialEq, Eq)]
pub struct Commit {
    pub v: u64,
    pub s: u64,
    pub digest: [u8; 32],
}

impl Same for Commit {
    fn is_same(&self, other: &Self) -> bool {
        *self == *other
    }
}

/// A master has ordered all numbers up to `s`: a checkpoint mark, as in PBFT.
#[derive(Clone, Copy, PartialEq, Eq)]
pub struct Mark {
    pub s: u64,
}

impl Same for Mark {
    fn is_same(&self, other: &Self) -> bool {
        *self == *other
    }
}

/// The prepares of a quorum for the rows of number `s` in view `v`, as in PBFT.
pub struct Certificate {
    pub s: u64,
    pub v: u64,
    pub rows: Rows,
    pub prepares: Items<Signed<Prepare>>,
}

// Taken apart here once, so that no crate above proves it again.
impl Drop for Certificate {
    fn drop(self) {
        let Certificate {
            s: _,
            v: _,
            rows: _,
            prepares: _,
        } = self;
    }
}

impl Copied for Certificate {
    fn copy(&self) -> Result<Self, Want> {
        Ok(Certificate {
            s: self.s,
            v: self.v,
            rows: self.rows.copy()?,
            prepares: self.prepares.copy()?,
        })
    }
}

impl Same for Certificate {
    fn is_same(&self, other: &Self) -> bool {
        self.s == other.s
            && self.v == other.v
            && self.rows.is_same(&other.rows)
            && self.prepares.is_same(&other.prepares)
    }
}
