//! Whom a history blames, as a text: the masters that contradicted themselves in what was taken, each with two frames of its
//! own as evidence.

pub mod laws;
mod printing;
mod taking;

pub use printing::blame_text;
