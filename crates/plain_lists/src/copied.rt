ghost use Rattle.std.specs.Prelude.{◌≡◌, ◌↔◌, IsTrue, IfOk};

use crate::want::Want;
use std::alloc::Global;

/// A value that can be copied where there is memory for it.
pub trait Copied: Drop {
    /// An equal value.
    fn copy(&self) -> Result<Self, Want>
        ensures { IfOk result (λ made. made ≡ self.now) };
}

/// A value that can be compared with another of its type.
pub trait Same {
    /// Whether the two are equal, in all that contracts see of them.
    fn is_same(&self, other: &Self) -> bool
        ensures { IsTrue result ↔ (self.now ≡ other.now) };
}

// What Rust copies by itself needs no memory for it.
impl<T: Copy + Drop> Copied for T {
    fn copy(&self) -> Result<Self, Want> {
        Ok(*self)
    }
}

/// A copy of each element, in order.
pub fn copy_all<T: Copied>(alloc: Global, items: &[T]) -> Result<Vec<T, Global>, Want>
    ensures { IfOk result (λ copies. copies.items ≡ items.now) }
{
    let mut copies = Vec::with_capacity(alloc, items.len())?;
    for item in items {
        copies.push(item.copy()?)?;
    }
    Ok(copies)
}

impl Same for u32 {
    fn is_same(&self, other: &u32) -> bool {
        *self == *other
    }
}

impl Same for u64 {
    fn is_same(&self, other: &u64) -> bool {
        *self == *other
    }
}
