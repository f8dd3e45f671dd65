//! Actors that make their turns side by side: what they post to one another comes to be executed by all masters, by however many
//! hands.
use crate::runs::{run_small, turns_made};
use crate::waiting::Waits;
use plain_lists::Want;
use replica_threads::Gate;
use std::alloc::Global;
use std::sync::Wait;
use std::sync::atomic::{AtomicU64, Ordering};
use std::test::Fail;
use std::thread::Threads;

/// How many turns each actor makes, about twice as many as one command takes.
const TURNS: u64 = 80;

/// A hand waits for each actor that has made two turns fewer than its own.
struct Abreast {
    /// How many turns each actor has come to.
    made: Vec<AtomicU64>,
    waits: Waits,
}

impl Drop for Abreast {
    fn drop(self) {
        let Abreast { made: _, waits: _ } = self;
    }
}

impl Abreast {
    fn make(alloc: Global, actors: u32) -> Result<Abreast, Want> {
        let mut made = Vec::with_capacity(alloc, actors as usize)?;
        for _actor in 0..actors {
            made.push(AtomicU64::new(0))?;
        }
        Ok(Abreast {
            made,
            waits: Waits::make(),
        })
    }
}

impl Gate for Abreast {
    fn pass<R: Threads + Wait>(&self, _rt: &R, who: u32, _turn: u64) {
        let Some(mine) = self.made.get(who as usize) else {
            return;
        };
        let least = mine.load(Ordering::SeqCst).saturating_sub(1);
        for other in &self.made {
            self.waits.until(other, least);
        }
    }

    fn inside<R: Threads + Wait>(&self, _rt: &R, who: u32, turn: u64) {
        if let Some(mine) = self.made.get(who as usize) {
            mine.store(turn, Ordering::SeqCst);
        }
    }
}

/// Whether all turns are made in a run with so many hands a master, and each master has executed one command.
fn all_execute<R: Threads + Wait + Sync>(alloc: Global, rt: &R, hands: u32) -> Result<bool, Fail> {
    let gate = Abreast::make(alloc, 5)?;
    let actors = run_small(alloc, rt, "command s0 ack 0\n", hands, TURNS, &gate)?;
    for master in 0..4usize {
        let Some(actor) = actors.get(master) else {
            return Ok(false);
        };
        if actor.bench().executions().len() != 1 {
            return Ok(false);
        }
    }
    Ok(turns_made(&actors) == 400)
}

#[test]
fn a_command_is_executed_by_all_masters(rt: HostRuntime) -> Result<(), Fail> {
    assert!(rt; all_execute(rt.alloc(), &rt, 1)?);
    assert!(rt; all_execute(rt.alloc(), &rt, 3)?);
    Ok(())
}
