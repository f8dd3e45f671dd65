//! Keys of 32 leaves, each for one signature, that are spent: their actors go on and say nothing more.
use crate::asking::executed;
use crate::scripts::{last_of, played};
use std::alloc::Global;
use std::test::Fail;
use world_history::Kept;

/// A command that is seen through while its leader has leaves.
const ROUND: &str = "command s0 ack 0\nflow 4\ntick masters\nflow 1\ntick m0\nflow 5\n";

/// A signature for each frame.
const ONE_SCREEN: &str = "levels = [5]\nscreens = 1\n";

/// A signature for all frames of an entry.
const ONE_SCREEN_IN_GROUPS: &str = "levels = [5]\nframes = 2\nscreens = 1\n";

/// A proxy as actor 4 whose device has two values to measure, each a point.
const ONE_PROXY: &str =
    "screens = 1\n[[proxy]]\ncoils = 0\ndiscrete = 0\nholding = 0\ninput = 2\n[[point]]\nname = \"amps\"\nproxy = 0\narea = \"input\"\nplace = 0\nlow = 0\nhigh = 100\n[[point]]\nname = \"volts\"\nproxy = 0\narea = \"input\"\nplace = 1\nlow = 0\nhigh = 100\n";

/// Two polls, at each of which both values are new.
const TWO_POLLS: &str =
    "field p0 input 0 1\nfield p0 input 1 1\npoll p0\nfield p0 input 0 2\nfield p0 input 1 2\npoll p0\n";

/// The lines of `count` rounds.
fn times(alloc: Global, lines: &str, count: u64) -> Result<String, Fail> {
    let mut script = String::new(alloc);
    for _round in 0..count {
        script.push_str(lines)?;
    }
    Ok(script)
}

/// How many leaves an actor's key has left.
pub(crate) fn left(kept: &[Kept], actor: usize) -> Result<u64, Fail> {
    match kept.get(actor) {
        Some(kept) => Ok(kept.bench().left()),
        None => Err("no such actor".into()),
    }
}

#[test]
fn a_spent_screen_says_no_more_commands(rt: HostRuntime) -> Result<(), Fail> {
    let script = times(rt.alloc(), "command s0 ack 0\n", 33)?;
    let kept = played(rt.alloc(), ONE_SCREEN, script.as_str(), "")??;
    assert_eq!(rt; left(&kept, 4)?, 0);
    let entry = last_of(&kept, 4)?;
    assert_eq!(rt; entry.stamp, 32);
    assert!(rt; entry.said.is_empty());
    Ok(())
}

/// Six rounds take all leaves of the leader, who signs each frame for itself: four are seen through.
#[test]
fn a_spent_leader_orders_no_more(rt: HostRuntime) -> Result<(), Fail> {
    let script = times(rt.alloc(), ROUND, 6)?;
    let kept = played(rt.alloc(), ONE_SCREEN, script.as_str(), "")??;
    assert_eq!(rt; left(&kept, 0)?, 0);
    for master in 0..4usize {
        assert_eq!(rt; executed(&kept, master)?, 4);
    }
    assert!(rt; last_of(&kept, 0)?.said.is_empty());
    Ok(())
}

/// Frames that share a signature take fewer leaves: five rounds are seen through, and then no master has one.
#[test]
fn masters_that_sign_in_groups_are_spent_later(rt: HostRuntime) -> Result<(), Fail> {
    let script = times(rt.alloc(), ROUND, 6)?;
    let kept = played(rt.alloc(), ONE_SCREEN_IN_GROUPS, script.as_str(), "")??;
    for master in 0..4usize {
        assert_eq!(rt; left(&kept, master)?, 0);
        assert_eq!(rt; executed(&kept, master)?, 5);
    }
    Ok(())
}

/// The actors after eighteen polls, of which each has two readings to say.
fn polled(alloc: Global, keys: &str) -> Result<Vec<Kept>, Fail> {
    let mut scenario = String::from_str(alloc, keys)?;
    scenario.push_str(ONE_PROXY)?;
    let script = times(alloc, TWO_POLLS, 9)?;
    let kept = played(alloc, scenario.as_str(), script.as_str(), "")??;
    Ok(kept)
}

#[test]
fn a_spent_proxy_says_no_more_readings(rt: HostRuntime) -> Result<(), Fail> {
    let kept = polled(rt.alloc(), "levels = [5]\n")?;
    assert_eq!(rt; left(&kept, 4)?, 0);
    assert!(rt; last_of(&kept, 4)?.said.is_empty());
    let kept = polled(rt.alloc(), "levels = [5]\nframes = 2\n")?;
    assert_eq!(rt; left(&kept, 4)?, 14);
    assert_eq!(rt; last_of(&kept, 4)?.said.len(), 2);
    Ok(())
}

/// A command seen through takes a leaf less of a master who says two words at one entry of it.
#[test]
fn a_signature_of_two_frames_takes_one_leaf(rt: HostRuntime) -> Result<(), Fail> {
    let script = "command s0 ack 0\nflow 3\ntick masters\nflow 1\ntick m0\nflow 5\n";
    let kept = played(rt.alloc(), "screens = 1\nframes = 2\n", script, "")??;
    assert_eq!(rt; left(&kept, 1)?, 32762);
    let kept = played(rt.alloc(), "screens = 1\n", script, "")??;
    assert_eq!(rt; left(&kept, 1)?, 32761);
    Ok(())
}
