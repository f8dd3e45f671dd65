ghost use Rattle.std.specs.Prelude.{◌≡◌, ◌↔◌, ℕ, List, [], length, IsTrue, IfOk};
ghost use Rattle.std.specs.Arc.{arc_value};

use crate::copied::{Copied, Same};
use crate::want::Want;
use std::alloc::Global;
use std::marker::Model;
use std::sync::Arc;

/// Bytes that never change, as a signature. Copies share them, so a copy takes no room of its own.
#[derive(Drop)]
pub struct Bytes {
    shared: Arc<Vec<u8, Global>, Global>,
}

impl Model for Bytes {
    ghost Value = { List ℕ };

    ghost view = { λ bytes. (arc_value bytes.shared).items };
}

impl Bytes {
    /// The bytes of `bytes`, which it takes over as they stand.
    pub fn from_vec(alloc: Global, bytes: Vec<u8, Global>) -> Result<Self, Want>
        ensures { IfOk result (λ made. made ≡ bytes.items) }
    {
        Ok(Bytes {
            shared: Arc::new(alloc, bytes)?,
        })
    }

    /// A copy of a slice.
    pub fn from_slice(alloc: Global, bytes: &[u8]) -> Result<Self, Want>
        ensures { IfOk result (λ made. made ≡ bytes.now) }
    {
        Bytes::from_vec(alloc, Vec::from_slice(alloc, bytes)?)
    }

    pub fn len(&self) -> usize
        ensures { result ≡ length self.now }
    {
        self.as_slice().len()
    }

    pub fn is_empty(&self) -> bool
        ensures { IsTrue result ↔ (self.now ≡ []) }
    {
        self.as_slice().is_empty()
    }

    pub fn as_slice(&self) -> &[u8]
        ensures { result.now ≡ self.now }
    {
        self.shared.as_slice()
    }
}

impl Copied for Bytes {
    fn copy(&self) -> Result<Self, Want> {
        Ok(Bytes {
            shared: Arc::try_clone(&self.shared)?,
        })
    }
}

impl Same for Bytes {
    fn is_same(&self, other: &Self) -> bool {
        self.as_slice() == other.as_slice()
    }
}
