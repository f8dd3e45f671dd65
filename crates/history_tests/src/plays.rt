//! Small plays.
use crate::asking::executed;
use crate::scripts::{last_of, last_said, played};
use message_types::Body;
use run_scripts::PlayAnswer;
use std::alloc::Global;
use std::test::Fail;
use world_history::{Event, Kept};

/// A screen as actor 4. Few hashes make the keys.
const ALL_CORRECT: &str = "levels = [5]\nscreens = 1\n";

/// The same, with master 3 intruded.
const ONE_INTRUDED: &str = "levels = [5]\nintruded = [3]\nscreens = 1\n";

/// All correct, by the rules that stay alive.
const ALIVE: &str = "levels = [5]\nscreens = 1\nrules = 2\n";

/// The stamps of the frames that an actor took, in order.
fn taken(alloc: Global, kept: &[Kept], actor: usize) -> Result<Vec<u64>, Fail> {
    let mut stamps = Vec::new(alloc);
    let Some(kept) = kept.get(actor) else {
        return Err("no such actor".into());
    };
    for entry in kept.bench().list() {
        if let Event::Took { stamp, .. } = &entry.event {
            stamps.push(*stamp)?;
        }
    }
    Ok(stamps)
}

#[test]
fn a_play_stops_where_a_frame_was_not_posted(rt: HostRuntime) -> Result<(), Fail> {
    let script = "tick m0\ntake m1 m0.update.1\n";
    let answer = played(rt.alloc(), ALL_CORRECT, script, "")?;
    assert!(rt; matches!(answer, Err(PlayAnswer::NoFrame { line: 2 })));
    Ok(())
}

#[test]
fn a_cry_is_answered_by_whom_it_is_sent_to(rt: HostRuntime) -> Result<(), Fail> {
    let alloc = rt.alloc();
    let kept = played(alloc, ONE_INTRUDED, "cry m3\nflow\n", "m3 m0 ping 7\n")??;
    assert_eq!(rt; kept.len(), 5);
    let body = last_said(&kept, 0)?;
    assert!(rt; matches!(body, Body::Pong(pong) if pong.to == 3 && pong.number == 7));
    assert_eq!(rt; taken(alloc, &kept, 0)?.as_slice(), [0].as_slice());
    assert!(rt; taken(alloc, &kept, 1)?.is_empty());
    Ok(())
}

#[test]
fn a_restart_posts_the_last_frames_again(rt: HostRuntime) -> Result<(), Fail> {
    let alloc = rt.alloc();
    let script = "command s0 ack 0\nflow\nrestart m0\nflow\n";
    let kept = played(alloc, ALL_CORRECT, script, "")??;
    // Both doors ask for the update, master 0 at stamp 1, and its request goes out twice.
    assert_eq!(rt; taken(alloc, &kept, 2)?.as_slice(), [1, 2, 1].as_slice());
    assert_eq!(rt; taken(alloc, &kept, 0)?.as_slice(), [0, 2].as_slice());
    Ok(())
}

#[test]
fn a_halted_actor_does_nothing_more(rt: HostRuntime) -> Result<(), Fail> {
    let keys = "levels = [5]\nscreens = 1\n[[keeper]]\nactor = \"s0\"\nfailing = [1]\n";
    let kept = played(
        rt.alloc(),
        keys,
        "command s0 ack 0\ncommand s0 ack 1\nflow\n",
        "",
    )??;
    assert_eq!(rt; last_of(&kept, 4)?.stamp, 0);
    assert!(rt; taken(rt.alloc(), &kept, 0)?.is_empty());
    Ok(())
}

#[test]
fn two_commands_are_executed_by_the_rules_that_stay_alive(rt: HostRuntime) -> Result<(), Fail> {
    let commands = "command s0 ack 0\ncommand s0 ack 1\nflow 3\n";
    let ticks = "tick masters\nflow 6\ntick masters\nflow 6\n";
    let mut script = String::from_str(rt.alloc(), commands)?;
    script.push_str(ticks)?;
    let kept = played(rt.alloc(), ALIVE, script.as_str(), "")??;
    for master in 0..4usize {
        assert_eq!(rt; executed(&kept, master)?, 2);
    }
    Ok(())
}
