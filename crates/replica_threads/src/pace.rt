//! A gate that lets no actor get far ahead of the others.

use crate::gate::Gate;
use plain_lists::Want;
use std::alloc::Global;
use std::sync::Wait;
use std::sync::atomic::{AtomicU64, Ordering};
use std::thread;
use std::thread::Threads;

/// How many turns an actor may be ahead of another.
const MOST_AHEAD: u64 = 64;

/// How often a hand yields to those behind it, at one turn.
const MOST_YIELDS: u32 = 10_000;

/// What the word of an actor is set to for which nobody waits any more: above all counts of turns.
const AWAY: u64 = 1 << 32;

/// Holds an actor back while another is more than 64 turns behind it. One that stays behind for 10,000 yields isn't waited for
/// any more: it may have been halted.
pub struct PaceGate {
    /// How many turns the hands of each actor have begun.
    begun: Vec<AtomicU64>,
}

impl Drop for PaceGate {
    fn drop(self) {
        let PaceGate { begun: _ } = self;
    }
}

impl PaceGate {
    /// A gate for so many actors.
    pub fn make(alloc: Global, actors: u32) -> Result<PaceGate, Want> {
        let mut begun = Vec::with_capacity(alloc, actors as usize)?;
        for _actor in 0..actors {
            begun.push(AtomicU64::new(0))?;
        }
        Ok(PaceGate { begun })
    }

    /// Whether an actor is too far behind one that has begun this turn.
    fn is_ahead(&self, turn: u64) -> bool {
        for begun in &self.begun {
            if is_behind(begun, turn) {
                return true;
            }
        }
        false
    }

    /// Waits no more for those that are too far behind.
    fn leave_behind(&self, turn: u64) {
        for begun in &self.begun {
            if is_behind(begun, turn) {
                begun.store(AWAY, Ordering::SeqCst);
            }
        }
    }
}

/// Whether the actor of this word is too far behind one that has begun this turn.
fn is_behind(begun: &AtomicU64, turn: u64) -> bool {
    turn.saturating_sub(begun.load(Ordering::SeqCst)) > MOST_AHEAD
}

impl Gate for PaceGate {
    fn pass<R: Threads + Wait>(&self, _rt: &R, who: u32, _turn: u64) {
        let Some(begun) = self.begun.get(who as usize) else {
            return;
        };
        let turn = begun.fetch_add(1, Ordering::SeqCst);
        if turn >= AWAY {
            return;
        }
        for _yield in 0..MOST_YIELDS {
            if !self.is_ahead(turn) {
                return;
            }
            thread::yield_now();
        }
        self.leave_behind(turn);
    }

    fn inside<R: Threads + Wait>(&self, _rt: &R, _who: u32, _turn: u64) {}
}
