//! Fields in bytes: a reader that takes big-endian fields from the front of a slice, and calls that
//! append them to a `Vec`. `specs/Fields.antt` says how each field stands in bytes.
#![tactic(auto)]

mod put;
mod reader;

pub use crate::put::{put_bytes, put_i64, put_u8, put_u16, put_u32, put_u64};
pub use crate::reader::{PartRefusal, Reader};
pub use plain_lists::Want;
