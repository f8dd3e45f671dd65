//! Histories in full, that the laws of agreement speak of: some that meet all their premises, and some that lack one and in
//! which correct masters disagree.
#![tactic(auto)]

pub mod examples;
