//! What `merge` prints of what stations kept, and which files it refuses. Lines and texts are those of the second program.
use crate::named_files::call;
use crate::raw::frame_of;
use std::alloc::Global;
use std::test::Fail;

/// Four masters and a screen. Each has 32 one-time keys.
const SCENARIO: &[u8] =
    b"f = 1\nseed = \"0000000000000000000000000000000000000000000000000000000000000000\"\nscreens = 1\nlevels = [5]\n";

/// What the screen's station kept: an operator's command.
const SCREEN: &[u8] =
    b"0 s0 command ack 0 says update digest 040f432baec5e06a4a3e8c3120494919632bacd6b7b29103edb09c1c23be8755\n";

/// What master 0's station kept before it took the screen's word, and what stands behind the bytes of that.
const BEFORE: &str =
    "0 m0 tick digest e3b0c44298fc1c149afbf4c8996fb92427ae41e4649b934ca495991b7852b855\n1 m0 took frame ";

const BEHIND: &str =
    " says porequest digest 1b2f17f4222dfec620fe8db3b910fcd6b9d6a90dc7e8e5c39c84cfa49939bbb9\n";

/// The text of the screen's word.
const UPDATE: [u8; 19] = [0, 1, 0, 0, 0, 0, 0, 0, 0, 0, 0, 0, 0, 1, 3, 0, 0, 0, 0];

/// One run of both.
const MERGED: &[u8] =
    b"spire 1\nmaster m0 view 0 executed 0\nmaster m1 view 0 executed 0\nmaster m2 view 0 executed 0\nmaster m3 view 0 executed 0\nscreen s0 notices 0\naudit forged 0 alike 0 intruded 0 limit 1\nagree yes\nhistory 3\n0 m0 tick\n1 s0 command ack 0 says update\n2 m0 took 1.0 says porequest\n";

/// How the master's file alone begins: nobody's file says the screen's word.
const FORGED: &[u8] =
    b"spire 1\nmaster m0 view 0 executed 0\nmaster m1 view 0 executed 0\nmaster m2 view 0 executed 0\nmaster m3 view 0 executed 0\nscreen s0 notices 0\naudit forged 1 alike 0 intruded 0 limit 1\nagree yes\nhistory 2\n0 m0 tick\n1 m0 took frame 00000004";

/// What master 0's station kept.
fn master_file(alloc: Global) -> Result<String, Fail> {
    let word = frame_of(alloc, 4, &UPDATE)?;
    let digits = hex::encode(alloc, &word)?;
    let mut kept = String::from_str(alloc, BEFORE)?;
    kept.push_str(digits.as_str())?;
    kept.push_str(BEHIND)?;
    Ok(kept)
}

#[test]
fn what_two_stations_kept_is_one_run(rt: HostRuntime) -> Result<(), Fail> {
    let alloc = rt.alloc();
    let master = master_file(alloc)?;
    let files = [
        ("scenario", SCENARIO),
        ("m0", master.as_bytes()),
        ("s0", SCREEN),
        ("run", MERGED),
    ];
    for command in [
        "merge scenario m0 s0",
        "merge scenario s0 m0",
        "replay scenario run",
    ] {
        let ending = call(&rt, alloc, command, &files)?;
        assert_eq!(rt; ending.status, 0, "{command}");
        assert_eq!(rt; ending.put.as_slice(), MERGED, "{command}");
    }
    let alone = call(&rt, alloc, "merge scenario m0", &files)?;
    assert_eq!(rt; alone.status, 0);
    assert!(rt; alone.put.starts_with(FORGED));
    Ok(())
}

/// A master's first tick.
const TICK: &[u8] =
    b"0 m0 tick digest e3b0c44298fc1c149afbf4c8996fb92427ae41e4649b934ca495991b7852b855\n";

/// The screen's line with a line behind it that is none, with a digest of nothing, and with a stamp that isn't the next.
const DANCE: &[u8] =
    b"0 s0 command ack 0 says update digest 040f432baec5e06a4a3e8c3120494919632bacd6b7b29103edb09c1c23be8755\ndance\n";

const SILENT: &[u8] =
    b"0 s0 command ack 0 says update digest e3b0c44298fc1c149afbf4c8996fb92427ae41e4649b934ca495991b7852b855\n";

const LATE: &[u8] =
    b"1 s0 command ack 0 says update digest 040f432baec5e06a4a3e8c3120494919632bacd6b7b29103edb09c1c23be8755\n";

#[test]
fn a_file_that_no_station_kept_is_named(rt: HostRuntime) -> Result<(), Fail> {
    let files = [
        ("scenario", SCENARIO),
        ("tick", TICK),
        ("dance", DANCE),
        ("silent", SILENT),
        ("late", LATE),
    ];
    for (command, line) in [
        (
            "merge scenario tick dance",
            b"spire: keep dance BadLine 2\n".as_slice(),
        ),
        (
            "merge scenario silent tick",
            b"spire: keep silent OtherWords 0\n".as_slice(),
        ),
        (
            "merge scenario tick late dance",
            b"spire: keep late NotLegal 0\n".as_slice(),
        ),
        (
            "merge scenario tick tick",
            b"spire: keep tick Twice\n".as_slice(),
        ),
    ] {
        let ending = call(&rt, rt.alloc(), command, &files)?;
        assert_eq!(rt; ending.status, 5, "{command}");
        assert_eq!(rt; ending.line.as_slice(), line, "{command}");
        assert!(rt; ending.put.is_empty());
    }
    Ok(())
}
