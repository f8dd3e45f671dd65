//! The measured points of a plant: what each one is, and its value.
#![tactic(auto)]

pub mod point;
pub mod points;

pub use point::{Area, DeviceSizes, Point};
pub use points::{PointRefusal, Points};
