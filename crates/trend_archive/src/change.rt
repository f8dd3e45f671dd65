ghost use Rattle.std.specs.Prelude.{◌≡◌, ◌↔◌, IsTrue, IfOk};

use plain_lists::{Copied, Items, Same, Want};

/// The executed update number `number`, from 1, gave a point this value.
#[derive(Clone, Copy, Debug, PartialEq, Eq)]
pub struct Changed {
    pub number: u64,
    pub value: i64,
}

/// A reading that changes a point.
#[derive(Clone, Copy, PartialEq, Eq)]
pub struct Reading {
    pub point: u32,
    pub value: i64,
}

/// The changes of a point by the executed updates number `first` to `last`, both among them, oldest first.
#[derive(Drop)]
pub struct Changes {
    pub point: u32,
    pub first: u64,
    pub last: u64,
    pub items: Items<Changed>,
}

impl Same for Changed {
    fn is_same(&self, other: &Self) -> bool {
        *self == *other
    }
}

impl Copied for Changes {
    fn copy(&self) -> Result<Self, Want> {
        Ok(Changes {
            point: self.point,
            first: self.first,
            last: self.last,
            items: self.items.copy()?,
        })
    }
}

impl Same for Changes {
    fn is_same(&self, other: &Self) -> bool {
        self.point == other.point
            && self.first == other.first
            && self.last == other.last
            && self.items.is_same(&other.items)
    }
}
