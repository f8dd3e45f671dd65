//! The grammar of rules as trees and the tokens that spell them, and that what is read is spelled so.
#![tactic(auto)]

pub mod laws;
