//! One history of what stations kept: each file is read as its actor's list, and the lists are joined in an order that is computed.
//! A correct actor's word is taken behind the entry that said it, wherever any order allows that.
#![tactic(auto)]

mod digests;
mod files;
mod joining;
pub mod laws;
mod order;
mod refusal;
mod waits;

pub use files::Kept;
pub use joining::join;
pub use refusal::JoinRefusal;
