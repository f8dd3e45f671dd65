//! A field device as Modbus sees it: four areas of places, and the answers to requests (Modbus Application Protocol
//! Specification V1.1b3). `specs/Table.antt` is the table of answers.
#![tactic(auto)]

mod bits;
pub mod device;
pub mod laws;
pub mod limits;
mod registers;

pub use device::{Device, NoPlace};
pub use limits::{MOST_BITS_READ, MOST_COILS_WRITTEN, MOST_REGISTERS_READ, MOST_REGISTERS_WRITTEN};
