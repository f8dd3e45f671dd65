use std::sync::Wait;
use std::thread::Threads;

/// What holds hands back. It answers nothing and may wait. Nothing is claimed of it.
pub trait Gate {
    /// A hand of the actor `who` is about to begin a turn, and has begun `turn` before it.
    fn pass<R: Threads + Wait>(&self, rt: &R, who: u32, turn: u64);

    /// A hand has locked the actor `who`, and is about to add the actor's entry of this number, from 1. Skips aren't counted.
    fn inside<R: Threads + Wait>(&self, rt: &R, who: u32, turn: u64);
}

/// A gate that holds nobody back.
#[derive(Drop)]
pub struct OpenGate;

impl Gate for OpenGate {
    fn pass<R: Threads + Wait>(&self, _rt: &R, _who: u32, _turn: u64) {}

    fn inside<R: Threads + Wait>(&self, _rt: &R, _who: u32, _turn: u64) {}
}
