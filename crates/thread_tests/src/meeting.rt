//! Two masters that wait for each other inside their turns. One thread for all hands, or one lock round all actors, can't do that.
use crate::runs::{run_small, turns_made};
use crate::waiting::Waits;
use replica_threads::Gate;
use std::sync::Wait;
use std::sync::atomic::{AtomicU64, Ordering};
use std::test::Fail;
use std::thread::Threads;

/// Masters 1 and 2 wait for each other, each under its lock at its first turn.
struct Meeting {
    first: AtomicU64,
    second: AtomicU64,
    waits: Waits,
}

impl Drop for Meeting {
    fn drop(self) {
        let Meeting {
            first: _,
            second: _,
            waits: _,
        } = self;
    }
}

impl Meeting {
    fn make() -> Meeting {
        Meeting {
            first: AtomicU64::new(0),
            second: AtomicU64::new(0),
            waits: Waits::make(),
        }
    }

    /// Whether both waited, and neither gave up.
    fn have_met(&self) -> bool {
        self.first.load(Ordering::SeqCst) == 1
            && self.second.load(Ordering::SeqCst) == 1
            && !self.waits.are_given_up()
    }

    fn meet(&self, mine: &AtomicU64, other: &AtomicU64) {
        mine.store(1, Ordering::SeqCst);
        self.waits.until(other, 1);
    }
}

impl Gate for Meeting {
    fn pass<R: Threads + Wait>(&self, _rt: &R, _who: u32, _turn: u64) {}

    fn inside<R: Threads + Wait>(&self, _rt: &R, who: u32, turn: u64) {
        match (who, turn) {
            (1, 1) => self.meet(&self.first, &self.second),
            (2, 1) => self.meet(&self.second, &self.first),
            _ => {}
        }
    }
}

#[test]
fn two_masters_can_wait_for_each_other(rt: HostRuntime) -> Result<(), Fail> {
    let gate = Meeting::make();
    let actors = run_small(rt.alloc(), &rt, "", 1, 8, &gate)?;
    assert_eq!(rt; turns_made(&actors), 40);
    assert!(rt; gate.have_met());
    Ok(())
}
