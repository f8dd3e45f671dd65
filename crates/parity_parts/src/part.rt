//! A master's part of a text.
ghost use Rattle.std.specs.Prelude.{◌≡◌, ◌<◌, ◌≤◌, IfOk, length};
ghost use Rattle.parity_parts.specs.Parts.{part_bytes, width};

use crate::field::{behind, value_of_column};
use crate::limits::MOST_TEXT_BYTES;
use plain_lists::{Bytes, Copied, Want};
use quorum_sets::Sizes;
use std::alloc::Global;

/// The part of one master: how long the text is, and the part's bytes.
#[derive(Drop)]
pub struct Part {
    pub master: u32,
    pub length: u32,
    pub bytes: Bytes,
}

impl Copied for Part {
    fn copy(&self) -> Result<Self, Want> {
        Ok(Part {
            master: self.master,
            length: self.length,
            bytes: self.bytes.copy()?,
        })
    }
}

/// How many bytes a part of a text of this length has.
pub fn width_of(sizes: &Sizes, size: usize) -> usize
    requires { size ≤ MOST_TEXT_BYTES }
    ensures width { result ≡ width sizes.now.f size }
    ensures some { 1 ≤ size → 1 ≤ result }
{
    let f = sizes.f as usize;
    (size + f) / (f + 1)
}

/// The part of a master of a text.
#[tactic(auto, using(crate::proofs::Columns::one_more), unfolding(crate::specs::Parts::part_bytes))]
pub fn part_of(alloc: Global, sizes: &Sizes, master: u32, text: &[u8]) -> Result<Part, Want>
    requires master { master < sizes.now.n }
    requires some { 1 ≤ length text.now }
    requires room { length text.now ≤ MOST_TEXT_BYTES }
    ensures master { IfOk result (λ part. part.master ≡ master) }
    ensures size { IfOk result (λ part. part.length ≡ length text.now) }
    ensures bytes { IfOk result (λ part. part.bytes ≡ part_bytes sizes.now.f master text.now) }
{
    let step = width_of(sizes, text.len());
    let mut bytes = Vec::new(alloc);
    for place in 0..step {
        bytes.push(value_of_column(behind(text, place), step, sizes.f + 1, master as u8))?;
    }
    Ok(Part {
        master,
        length: text.len() as u32,
        bytes: Bytes::from_vec(alloc, bytes)?,
    })
}
