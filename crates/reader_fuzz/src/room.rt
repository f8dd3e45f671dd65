//! What readers and inputs are made over, once for all inputs.
use crate::calls::played;
use alarm_rules::Alarms;
use anyhow::{Context, Result};
use checked_frames::KeyRing;
use made_inputs::calls::Parts;
use made_inputs::frames::Frames;
use made_inputs::keys::{Keys, public_keys};
use made_inputs::plant::{alarms, points};
use point_table::Points;
use std::alloc::Global;
use std::sync::Wait;
use std::thread::Threads;

/// Four masters, of which m3 is intruded, one screen, and a device with a feeder's current and two coils.
pub fn scenario_text() -> &'static str {
    SCENARIO
}

const SCENARIO: &str =
    "f = 1\nseed = \"0000000000000000000000000000000000000000000000000000000000000000\"\nlevels = [5]\nintruded = [3]\nscreens = 1\n[[proxy]]\ncoils = 2\ndiscrete = 0\nholding = 1\ninput = 1\n[[point]]\nname = \"feeder_amps\"\nproxy = 0\narea = \"input\"\nplace = 0\nscale = 10\nlow = 0\nhigh = 20000\n[[point]]\nname = \"breaker\"\nproxy = 0\narea = \"coil\"\nplace = 0\nlow = 0\nhigh = 1\n[[alarm]]\nname = \"overload\"\npoint = \"feeder_amps\"\nkind = \"high\"\nlimit = 9000\nband = 500\n";

// A setting and a reading, which the correct masters execute.
const SCRIPT: &str =
    "command s0 set 1 1\nflow 3\nfield p0 input 0 950\npoll p0\nflow 4\ntick masters\nflow 1\ntick m0\nflow 5\n";

pub struct Room {
    pub alloc: Global,
    pub ring: KeyRing,
    pub points: Points,
    pub alarms: Alarms,
    /// Frames whose signatures sign nothing.
    pub unsigned: Frames,
    /// Frames signed under the ring's keys.
    pub signed: Frames,
    /// These keys.
    pub keys: Keys,
    /// The entries of a printed run of the scenario, a line each.
    pub entries: String,
}

// Taken apart here once, so that no function above proves it again.
impl Drop for Room {
    fn drop(self) {
        let Room {
            alloc: _,
            ring: _,
            points: _,
            alarms: _,
            unsigned: _,
            signed: _,
            keys: _,
            entries: _,
        } = self;
    }
}

impl Room {
    pub fn make<R: Threads + Wait + Sync>(rt: &R, alloc: Global) -> Result<Room> {
        Ok(Room {
            alloc,
            ring: public_keys(alloc)?,
            points: points(alloc)?,
            alarms: alarms(alloc)?,
            unsigned: Frames::unsigned(alloc)?,
            signed: Frames::signed(alloc)?,
            keys: Keys::make(alloc)?,
            entries: entries(rt, alloc)?,
        })
    }

    /// What calls are made over.
    pub fn parts(&self) -> Parts<'_> {
        Parts {
            alloc: self.alloc,
            keys: &self.keys,
            scenario: SCENARIO,
            entries: self.entries.as_str(),
        }
    }
}

fn entries<R: Threads + Wait + Sync>(rt: &R, alloc: Global) -> Result<String> {
    let text = played(rt, alloc, SCENARIO, SCRIPT)?;
    let (_, history) = text.as_str().split_once("\nhistory ").context("a history")?;
    let (_, entries) = history.split_once('\n').context("its entries")?;
    Ok(String::from_str(alloc, entries)?)
}
