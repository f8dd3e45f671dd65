//! Calls that are refused, each with its status and its line, and the calls without a play.
use crate::calls::{Given, NONE_FAILS, ONE_SCREEN, PLAY, count_of, ended, text_by};
use std::alloc::Global;
use std::sync::Wait;
use std::test::Fail;
use std::thread::Threads;

const NOTHING: Given<'static> = Given {
    keys: ONE_SCREEN,
    script: "",
    words: "",
    history: "",
};

/// The line of a play that is refused with this status and puts nothing.
fn line_of<R: Threads + Wait + Sync>(
    rt: &R,
    alloc: Global,
    script: &str,
    status: u8,
) -> Result<String, Fail> {
    let given = Given { script, ..NOTHING };
    let ending = ended(rt, alloc, PLAY, given, NONE_FAILS)?;
    ending.refused(status)
}

#[test]
fn a_script_is_refused_by_line(rt: HostRuntime) -> Result<(), Fail> {
    let line = line_of(&rt, rt.alloc(), "flow 1\ntick m9\n", 5)?;
    assert_eq!(rt; line.as_str(), "spire: script NoActor 2\n");
    let line = line_of(&rt, rt.alloc(), "take m0 s0.update.1\n", 5)?;
    assert_eq!(rt; line.as_str(), "spire: script NoFrame 1\n");
    let line = line_of(&rt, rt.alloc(), "dance\n", 5)?;
    assert_eq!(rt; line.as_str(), "spire: script BadLine 1\n");
    Ok(())
}

/// The line of a play whose scenario is another file, which is refused.
fn scenario_line_of<R: Threads + Wait + Sync>(
    rt: &R,
    alloc: Global,
    scenario: &str,
) -> Result<String, Fail> {
    let given = Given {
        history: scenario,
        ..NOTHING
    };
    let ending = ended(rt, alloc, "play history script words", given, NONE_FAILS)?;
    ending.refused(4)
}

#[test]
fn a_scenario_is_refused_by_key(rt: HostRuntime) -> Result<(), Fail> {
    let line = scenario_line_of(&rt, rt.alloc(), "screens = 1\n")?;
    assert_eq!(rt; line.as_str(), "spire: scenario MissingKey f\n");
    let line = scenario_line_of(&rt, rt.alloc(), "f = 0\nscreens = 1\n")?;
    assert_eq!(rt; line.as_str(), "spire: scenario BadValue f\n");
    Ok(())
}

/// A script of one byte more than a file may have.
fn long_script(alloc: Global) -> Result<String, Fail> {
    let mut kilobyte = String::new(alloc);
    for _byte in 0..1024u64 {
        kilobyte.push('#')?;
    }
    let mut script = String::new(alloc);
    for _kilobyte in 0..16384u64 {
        script.push_str(kilobyte.as_str())?;
    }
    script.push('#')?;
    Ok(script)
}

#[test]
fn a_script_that_is_too_long_or_not_there_is_named(rt: HostRuntime) -> Result<(), Fail> {
    let script = long_script(rt.alloc())?;
    let line = line_of(&rt, rt.alloc(), script.as_str(), 3)?;
    assert_eq!(rt; line.as_str(), "spire: file script too long\n");
    let ending = ended(
        &rt,
        rt.alloc(),
        "play scenario nothing words",
        NOTHING,
        NONE_FAILS,
    )?;
    assert_eq!(rt; ending.status, 3);
    assert_eq!(rt; ending.line.as_str(), "spire: file nothing fault\n");
    assert!(rt; ending.text.is_empty());
    Ok(())
}

#[test]
fn what_a_station_kept_may_be_longer(rt: HostRuntime) -> Result<(), Fail> {
    // A file without a whole line is nobody's.
    let kept = long_script(rt.alloc())?;
    let given = Given {
        script: kept.as_str(),
        ..NOTHING
    };
    let text = text_by(&rt, rt.alloc(), "merge scenario script", given)?;
    assert_eq!(rt; count_of(text.as_str(), "history 0"), 1);
    Ok(())
}

#[test]
fn a_made_run_is_the_same_each_time(rt: HostRuntime) -> Result<(), Fail> {
    let text = text_by(&rt, rt.alloc(), "make 1", NOTHING)?;
    assert_eq!(rt; count_of(text.as_str(), "agree yes"), 1);
    assert_eq!(rt;
        count_of(text.as_str(), "audit forged 0 alike 0 intruded 0 limit 1"),
        1
    );
    let again = text_by(&rt, rt.alloc(), "make 1", NOTHING)?;
    assert!(rt; again.as_str() == text.as_str());
    Ok(())
}
