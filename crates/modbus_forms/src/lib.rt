//! Requests and replies of Modbus over TCP/IP in their one spelling: `read_request`, `write_request`, `read_reply` and
//! `write_reply`. `specs/` says which bytes spell which message (Modbus Application Protocol Specification V1.1b3,
//! MODBUS Messaging on TCP/IP Implementation Guide V1.0b).
#![tactic(auto)]

mod frame;
pub mod laws;
mod read;
mod refusal;
mod reply;
mod request;
mod write;

pub use crate::read::{read_reply, read_request};
pub use crate::refusal::ModbusRefusal;
pub use crate::reply::{Reply, ReplyPdu};
pub use crate::request::{Request, RequestPdu};
pub use crate::write::{write_reply, write_request};
pub use plain_lists::Want;
