use crate::named_files::{File, call, play};
use std::alloc::Global;
use std::process::Abort;
use std::sync::Wait;
use std::test::Fail;
use std::thread::Threads;

/// Four masters and a screen. Each has 32 one-time keys.
const SCENARIO: &str =
    "f = 1\nseed = \"0000000000000000000000000000000000000000000000000000000000000000\"\nscreens = 1\nlevels = [5]\n";

/// The operator's command is certified by all masters.
const SCRIPT: &str = "command s0 ack 0\nflow 3\n";

/// Its parts, by the reference program.
const PARTS: &[u8] =
    b"digest 5307c0b0ae6aacdcf5076254f1ff92f98e7d8fce3c1c9479bd37fe10d735561a\nm0 19 00010000000000000000\nm1 19 00010001030000000000\nm2 19 00010002060000000000\nm3 19 00010003050000000000\n";

/// Three of them, one of which is wrong.
const WRONG: &[u8] =
    b"digest 5307c0b0ae6aacdcf5076254f1ff92f98e7d8fce3c1c9479bd37fe10d735561a\nm1 19 00010001030000000000\nm2 19 00010002060000000001\nm3 19 00010003050000000000\n";

/// One of them and a wrong one.
const FEW: &[u8] =
    b"digest 5307c0b0ae6aacdcf5076254f1ff92f98e7d8fce3c1c9479bd37fe10d735561a\nm1 19 00010001030000000000\nm2 19 00010002060000000001\n";

/// Wants a command that is seen through to put this.
fn puts<R: Threads + Wait + Sync + Abort>(
    rt: &R,
    alloc: Global,
    line: &str,
    files: &[File<'_>],
    put: &[u8],
) -> Result<(), Fail> {
    let ending = call(rt, alloc, line, files)?;
    assert_eq!(rt; ending.status, 0, "{line}");
    assert_eq!(rt; ending.put.as_slice(), put, "{line}");
    Ok(())
}

/// The status of a command that tells this line.
fn told<R: Threads + Wait + Sync + Abort>(
    rt: &R,
    alloc: Global,
    line: &str,
    files: &[File<'_>],
    wanted: &[u8],
) -> Result<u8, Fail> {
    let ending = call(rt, alloc, line, files)?;
    assert_eq!(rt; ending.line.as_slice(), wanted, "{line}");
    Ok(ending.status)
}

#[test]
fn the_parts_of_a_certified_request_are_printed(rt: HostRuntime) -> Result<(), Fail> {
    let text = play(&rt, rt.alloc(), SCENARIO, SCRIPT, "")?;
    let files = [
        ("scenario", SCENARIO.as_bytes()),
        ("history", text.as_slice()),
    ];
    puts(&rt, rt.alloc(), "parts scenario history 0 1", &files, PARTS)?;
    let line = b"spire: parts NotCertified\n";
    let status = told(&rt, rt.alloc(), "parts scenario history 2 1", &files, line)?;
    assert_eq!(rt; status, 9);
    Ok(())
}

#[test]
fn a_request_is_rebuilt_beside_a_wrong_part(rt: HostRuntime) -> Result<(), Fail> {
    let files = [
        ("scenario", SCENARIO.as_bytes()),
        ("wrong", WRONG),
        ("few", FEW),
        ("script", SCRIPT.as_bytes()),
    ];
    let text = b"text 00010000000000000000000000010300000000\nwrong m2\n";
    puts(&rt, rt.alloc(), "rebuild scenario wrong", &files, text)?;
    for (command, line, status) in [
        (
            "rebuild scenario few",
            b"spire: rebuild NoText\n".as_slice(),
            9,
        ),
        (
            "rebuild scenario script",
            b"spire: parts BadLine 1\n".as_slice(),
            5,
        ),
    ] {
        assert_eq!(rt; told(&rt, rt.alloc(), command, &files, line)?, status);
    }
    Ok(())
}

#[test]
fn nobody_is_blamed_where_all_are_correct(rt: HostRuntime) -> Result<(), Fail> {
    let text = play(&rt, rt.alloc(), SCENARIO, SCRIPT, "")?;
    let files = [
        ("scenario", SCENARIO.as_bytes()),
        ("history", text.as_slice()),
    ];
    puts(
        &rt,
        rt.alloc(),
        "blame scenario history",
        &files,
        b"blame 0\n",
    )
}

#[test]
fn a_master_that_acknowledges_two_requests_as_one_is_blamed(rt: HostRuntime) -> Result<(), Fail> {
    let mut scenario = String::from_str(rt.alloc(), SCENARIO)?;
    scenario.push_str("intruded = [0]\n")?;
    let text = play(
        &rt,
        rt.alloc(),
        scenario.as_str(),
        "command s0 ack 0\ncommand s0 ack 1\nflow 2\ncry m0 2\nflow 1\n",
        "m0 m1 poack 1 1 @m1.porequest.1\nm0 m1 poack 1 1 @m1.porequest.2\n",
    )?;
    let blame = call(
        &rt,
        rt.alloc(),
        "blame scenario history",
        &[
            ("scenario", scenario.as_bytes()),
            ("history", text.as_slice()),
        ],
    )?;
    assert_eq!(rt; blame.status, 0);
    assert!(rt; blame.put.starts_with(b"blame 1\nm0 poack "));
    Ok(())
}

/// A point behind a proxy.
const POINT: &str =
    "[[proxy]]\ncoils = 0\ndiscrete = 0\nholding = 0\ninput = 1\n[[point]]\nname = \"amps\"\nproxy = 0\narea = \"input\"\nplace = 0\nscale = 10\nlow = 0\nhigh = 20000\n";

/// The point's place changes, and the masters execute its reading.
const READING: &str =
    "field p0 input 0 950\npoll p0\nflow 4\ntick masters\nflow 1\ntick m0\nflow 5\n";

/// How long the reading took, by the reference program.
const DELAYS: &[u8] =
    b"views 1\nview 0 leader m0 from 0 votes 0 idle 70\nspreads 4\np0 at m0 said 1 ended 1 entries 71 71 71 71 ticks 2 2 2 2\np0 at m1 said 1 ended 1 entries 69 69 69 69 ticks 1 1 1 1\np0 at m2 said 1 ended 1 entries 70 70 70 70 ticks 1 1 1 1\np0 at m3 said 1 ended 1 entries 73 73 73 73 ticks 1 1 1 1\nunexecuted 0\noutcomes 4\np0 1 said 1 at m0 tick 0 ended 72 entries 71 ticks 2\np0 1 said 1 at m1 tick 0 ended 70 entries 69 ticks 1\np0 1 said 1 at m2 tick 0 ended 71 entries 70 ticks 1\np0 1 said 1 at m3 tick 0 ended 74 entries 73 ticks 1\n";

#[test]
fn a_reading_is_shown_as_a_change_with_its_delays(rt: HostRuntime) -> Result<(), Fail> {
    let mut scenario = String::from_str(rt.alloc(), SCENARIO)?;
    scenario.push_str(POINT)?;
    let text = play(&rt, rt.alloc(), scenario.as_str(), READING, "")?;
    let files = [
        ("scenario", scenario.as_bytes()),
        ("history", text.as_slice()),
    ];
    let changes = b"trend 0 1 1 changes 1\n1 9500\n";
    puts(
        &rt,
        rt.alloc(),
        "trend scenario history 0 1 1",
        &files,
        changes,
    )?;
    puts(&rt, rt.alloc(), "delays scenario history", &files, DELAYS)?;
    for (command, line) in [
        (
            "trend scenario history 0 1 2",
            b"spire: trend NotReached 1\n".as_slice(),
        ),
        (
            "trend scenario history 1 1 1",
            b"spire: trend NoPoint\n".as_slice(),
        ),
        (
            "trend scenario history 0 0 1",
            b"spire: trend BadRange\n".as_slice(),
        ),
        (
            "picture scenario history 2 1",
            b"spire: picture BadRange\n".as_slice(),
        ),
        (
            "plot scenario history 1",
            b"spire: plot NoPoint\n".as_slice(),
        ),
    ] {
        assert_eq!(rt; told(&rt, rt.alloc(), command, &files, line)?, 9);
    }
    Ok(())
}

#[test]
fn pictures_are_drawn_of_the_entries_asked_for(rt: HostRuntime) -> Result<(), Fail> {
    let text = play(&rt, rt.alloc(), SCENARIO, SCRIPT, "")?;
    let files = [
        ("scenario", SCENARIO.as_bytes()),
        ("history", text.as_slice()),
    ];
    let drawn = call(
        &rt,
        rt.alloc(),
        "picture scenario history 1 1 --width 600",
        &files,
    )?;
    assert_eq!(rt; drawn.status, 0);
    assert!(rt; drawn.put.starts_with(b"<svg xmlns=\"http://www.w3.org/2000/svg\" width=\"600\" "));
    let mut titles = 0u32;
    for line in drawn.put.split(|byte| *byte == b'\n') {
        if line.starts_with(b"<g><title>") {
            assert_eq!(rt;
                line,
                b"<g><title>1 m0 took update of 0, says 1</title>".as_slice()
            );
            titles = titles.saturating_add(1);
        }
    }
    assert_eq!(rt; titles, 1);
    Ok(())
}
