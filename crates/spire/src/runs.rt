//! Runs in threads.
use crate::calls::{Given, NONE_FAILS, ONE_SCREEN, count_of, ended, text_by};
use std::test::Fail;

/// Two devices and three points, an alarm and an interlock.
const PLANT: &str = "screens = 1\n\
[[proxy]]\ncoils = 2\ndiscrete = 0\nholding = 1\ninput = 1\n\
[[proxy]]\ncoils = 2\ndiscrete = 0\nholding = 0\ninput = 0\n\
[[point]]\nname = \"feeder_amps\"\nproxy = 0\narea = \"input\"\nplace = 0\nscale = 10\nlow = 0\nhigh = 20000\n\
[[point]]\nname = \"breaker\"\nproxy = 0\narea = \"coil\"\nplace = 0\nlow = 0\nhigh = 1\n\
[[point]]\nname = \"pump\"\nproxy = 1\narea = \"coil\"\nplace = 9\nlow = 0\nhigh = 1\n\
[[alarm]]\nname = \"overload\"\npoint = \"feeder_amps\"\nkind = \"high\"\nlimit = 9000\nband = 500\n\
[[interlock]]\nname = \"no_close\"\npoint = \"breaker\"\nvalue = 1\ndeny = \"alarm overload\"\n";

const SCRIPT: &str =
    "field p0 input 0 950\npoll p0\ncommand s0 set 1 1\ncommand s0 ack 0\ncommand s0 set 1 0\ncommand s0 set 2 1\n";

/// Its actors.
const ACTORS: [&str; 7] = ["m0", "m1", "m2", "m3", "p0", "p1", "s0"];

/// Whether a line of a history is an entry of the actor that is no skip.
fn is_turn_of(line: &str, actor: &str) -> bool {
    let mut words = line.split(' ').skip(1);
    words.next() == Some(actor) && words.next() != Some("skip")
}

fn turns_of(history: &str, actor: &str) -> usize {
    history
        .lines()
        .filter(|line| is_turn_of(line, actor))
        .count()
}

fn is_master_that_executed(line: &str) -> bool {
    line.starts_with("master m") && !line.ends_with(" executed 0")
}

#[test]
fn a_run_makes_all_turns_and_is_replayed(rt: HostRuntime) -> Result<(), Fail> {
    let alloc = rt.alloc();
    let run = "run scenario script words --hands 2 --turns 2000";
    let ran = ended(&rt, alloc, run, Given::play(PLANT, SCRIPT, ""), NONE_FAILS)?.whole()?;
    let text = ran.as_str();
    let Some((head, history)) = text.split_once("\nhistory ") else {
        return Err("a text without a history".into());
    };
    for actor in ACTORS {
        assert_eq!(rt; turns_of(history, actor), 2000);
    }
    assert_eq!(rt;
        count_of(head, "audit forged 0 alike 0 intruded 0 limit 1"),
        1
    );
    assert_eq!(rt; count_of(head, "agree yes"), 1);
    let executed = head
        .lines()
        .filter(|line| is_master_that_executed(line))
        .count();
    assert!(rt; executed > 0);
    let replay = Given {
        history: text,
        ..Given::play(PLANT, "", "")
    };
    let replayed = text_by(&rt, alloc, "replay scenario history", replay)?;
    assert!(rt; replayed.as_str() == text);
    Ok(())
}

/// Masters 0 to 3, the last of them intruded, a proxy as actor 4, and a screen as actor 5 whose keeper fails at its second
/// entry.
const INTRUDED: &str = "levels = [5]\nintruded = [3]\nscreens = 1\n\
[[proxy]]\ncoils = 1\ndiscrete = 0\nholding = 0\ninput = 0\n\
[[point]]\nname = \"breaker\"\nproxy = 0\narea = \"coil\"\nplace = 0\nlow = 0\nhigh = 1\n\
[[keeper]]\nactor = \"s0\"\nfailing = [2]\n";

/// What a run of theirs says whatever the order of its turns: five actors make 72 turns, and the screen is halted at its second.
const INTRUDED_LINES: [&str; 5] = [
    "master m3 intruded",
    "screen s0 notices 0 halted",
    "audit forged 0 alike 0 intruded 1 limit 1",
    "agree yes",
    "history 362",
];

#[test]
fn a_run_with_an_intruder_is_printed_as_its_replay(rt: HostRuntime) -> Result<(), Fail> {
    let alloc = rt.alloc();
    let given = Given::play(
        INTRUDED,
        "field p0 coil 0 1\npoll p0\ncommand s0 ack 0\nrestart m1\ncry m3\n",
        "m3 m0 ping 7\n",
    );
    for run in [
        "run scenario script words --hands 1 --turns 72",
        "run scenario script words --hands 3 --turns 72",
    ] {
        let text = text_by(&rt, alloc, run, given)?;
        for line in INTRUDED_LINES {
            assert_eq!(rt; count_of(text.as_str(), line), 1, "{line}");
        }
        let replay = Given {
            history: text.as_str(),
            ..given
        };
        let replayed = text_by(&rt, alloc, "replay scenario history", replay)?;
        assert!(rt; replayed.as_str() == text.as_str());
    }
    Ok(())
}

#[test]
fn a_run_is_refused_as_a_play_is(rt: HostRuntime) -> Result<(), Fail> {
    let given = Given::play(ONE_SCREEN, "tick m0\ntick m9\n", "");
    for (command, status, wanted) in [
        ("run a b c --hands 5 --turns 9", 2, "spire: usage\n"),
        (
            "run scenario script words --hands 2 --turns 9",
            5,
            "spire: script NoActor 2\n",
        ),
        (
            "run scenario absent words --hands 2 --turns 9",
            3,
            "spire: file absent fault\n",
        ),
    ] {
        let line = ended(&rt, rt.alloc(), command, given, NONE_FAILS)?.refused(status)?;
        assert_eq!(rt; line.as_str(), wanted);
    }
    Ok(())
}
