//! Turns that come one after the other, so that the history is known beforehand: whoever is posted a frame takes it at its next
//! turn, the oldest first.
use crate::runs::run_small;
use crate::waiting::Waits;
use plain_lists::Want;
use replica_threads::Gate;
use std::alloc::Global;
use std::sync::Wait;
use std::sync::atomic::{AtomicU64, Ordering};
use std::test::Fail;
use std::thread::Threads;
use world_history::{Entry, Event, Kept};

/// The actors make their first turns in the order of their numbers, then their second ones, and so on. They make their last
/// turns all at once.
struct InTurn {
    /// How many turns each actor has begun.
    begun: Vec<AtomicU64>,
    /// The number of the last turn, from 0.
    last: u64,
    waits: Waits,
}

impl Drop for InTurn {
    fn drop(self) {
        let InTurn {
            begun: _,
            last: _,
            waits: _,
        } = self;
    }
}

impl InTurn {
    fn make(alloc: Global, actors: u32, turns: u64) -> Result<InTurn, Want> {
        let mut begun = Vec::with_capacity(alloc, actors as usize)?;
        for _actor in 0..actors {
            begun.push(AtomicU64::new(0))?;
        }
        Ok(InTurn {
            begun,
            last: turns.saturating_sub(1),
            waits: Waits::make(),
        })
    }

    /// Whether each actor has begun all turns, and no wait was given up.
    fn is_whole(&self) -> bool {
        for begun in &self.begun {
            if begun.load(Ordering::SeqCst) <= self.last {
                return false;
            }
        }
        !self.waits.are_given_up()
    }

    /// How many turns the actor at place `other` is to have begun before the one at `place` goes on with its turn of this number,
    /// from 1.
    fn wanted(&self, place: usize, other: usize, number: u64) -> u64 {
        if other < place && number <= self.last {
            number.saturating_add(1)
        } else {
            number
        }
    }
}

impl Gate for InTurn {
    fn pass<R: Threads + Wait>(&self, _rt: &R, who: u32, turn: u64) {
        let place = who as usize;
        let Some(mine) = self.begun.get(place) else {
            return;
        };
        let number = turn.saturating_add(1);
        mine.store(number, Ordering::SeqCst);
        for other in 0..self.begun.len() {
            self.waits
                .until(&self.begun[other], self.wanted(place, other, number));
        }
    }

    fn inside<R: Threads + Wait>(&self, _rt: &R, _who: u32, _turn: u64) {}
}

/// An entry: its stamp, the stamp at which the frame that it takes was said, and how many words are said.
type Told = (u64, Option<u64>, usize);

fn is_told(entry: &Entry, wanted: &Told) -> bool {
    let taken = match entry.event {
        Event::Took { stamp, .. } => Some(stamp),
        _ => None,
    };
    (entry.stamp, taken, entry.said.len()) == *wanted
}

/// Whether the actor's first three entries are told so, and one tick without words follows.
fn are_told(actor: &Kept, first: &[Told; 3]) -> bool {
    let [one, two, three, last] = actor.bench().list() else {
        return false;
    };
    is_told(one, &first[0])
        && is_told(two, &first[1])
        && is_told(three, &first[2])
        && matches!(last.event, Event::Tick)
        && last.said.is_empty()
}

#[test]
fn turns_in_order_make_one_history(rt: HostRuntime) -> Result<(), Fail> {
    let gate = InTurn::make(rt.alloc(), 5, 4)?;
    let actors = run_small(rt.alloc(), &rt, "command s0 ack 0\n", 1, 4, &gate)?;
    assert!(rt; gate.is_whole());
    let [first, second, third, fourth, screen] = actors.as_slice() else {
        return Err("another number of actors".into());
    };
    assert!(rt; are_told(first, &[(0, None, 0), (5, Some(4), 1), (10, Some(6), 2)]));
    assert!(rt; are_told(second, &[(1, None, 0), (6, Some(4), 1), (11, Some(5), 2)]));
    assert!(rt; are_told(third, &[(2, None, 0), (7, Some(5), 1), (12, Some(6), 1)]));
    assert!(rt; are_told(fourth, &[(3, None, 0), (8, Some(5), 1), (13, Some(6), 1)]));
    assert!(rt; are_told(screen, &[(4, None, 1), (9, None, 0), (14, None, 0)]));
    Ok(())
}
