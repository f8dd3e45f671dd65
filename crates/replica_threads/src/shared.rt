use crate::posted::Posted;
use checked_frames::KeyRing;
use inboxes::Inbox;
use scenario_file::Scenario;
use stamps::Stamps;
use std::alloc::Global;

/// What all hands of a run share, besides the stations.
#[derive(Drop)]
pub struct Shared<'a> {
    pub alloc: Global,
    pub scenario: &'a Scenario,
    /// The public keys of all actors.
    pub ring: &'a KeyRing,
    pub stamps: &'a Stamps,
    /// One for each actor, in the order of their numbers.
    pub inboxes: &'a [Inbox<Posted>],
    /// The most turns that an actor makes.
    pub turns: u64,
}
