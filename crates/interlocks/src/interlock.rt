use crate::rule::Rule;
use plain_lists::{Copied, Text, Want};

/// A rule that denies commands to a point while it holds.
pub struct Interlock {
    pub name: Text,
    /// The number of the point that is guarded.
    pub point: u32,
    /// The value that is denied; where there is none, every value.
    pub value: Option<i64>,
    pub deny: Rule,
}

// Taken apart here once, so that no crate above proves it again.
impl Drop for Interlock {
    fn drop(self) {
        let Interlock {
            name: _,
            point: _,
            value: _,
            deny: _,
        } = self;
    }
}

impl Copied for Interlock {
    fn copy(&self) -> Result<Self, Want> {
        Ok(Interlock {
            name: self.name.copy()?,
            point: self.point,
            value: self.value,
            deny: self.deny.copy()?,
        })
    }
}
