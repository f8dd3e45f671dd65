ghost use Rattle.std.specs.Prelude.{◌≡◌, ◌↔◌, ℕ, List, IsTrue, IfOk, string_bytes};

use crate::copied::{Copied, Same};
use crate::want::Want;
use std::alloc::Global;
use std::marker::Model;

/// A name or another short text. Contracts see its bytes.
#[derive(Drop)]
pub struct Text {
    alloc: Global,
    text: String<Global>,
}

impl Model for Text {
    ghost Value = { List ℕ };

    ghost view = { λ name. string_bytes name.text };
}

impl Text {
    /// A copy of `text`.
    pub fn from_str(alloc: Global, text: &str) -> Result<Self, Want>
        ensures { IfOk result (λ made. made ≡ text.now) }
    {
        Ok(Text {
            alloc,
            text: String::from_str(alloc, text)?,
        })
    }

    pub fn as_str(&self) -> &str
        ensures { result.now ≡ self.now }
    {
        self.text.as_str()
    }
}

impl Copied for Text {
    fn copy(&self) -> Result<Self, Want> {
        Text::from_str(self.alloc, self.text.as_str())
    }
}

impl Same for Text {
    fn is_same(&self, other: &Self) -> bool {
        self.as_str() == other.as_str()
    }
}
