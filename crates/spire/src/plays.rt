use crate::calls::Failing;
use crate::named_files::{Ending, call_failing};
use std::alloc::Global;
use std::sync::Wait;
use std::test::Fail;
use std::thread::Threads;

/// Four masters and a screen. Each has 32 one-time keys.
const SCENARIO: &str =
    "f = 1\nseed = \"0000000000000000000000000000000000000000000000000000000000000000\"\nscreens = 1\nlevels = [5]\n";

/// The operator's command reaches its two doors, which introduce it, and all masters certify it.
const SCRIPT: &str = "command s0 ack 0\nflow 3\n";

/// Its text, by the reference program.
const TEXT: &[u8] =
    b"spire 1\nmaster m0 view 0 executed 0\nmaster m1 view 0 executed 0\nmaster m2 view 0 executed 0\nmaster m3 view 0 executed 0\nscreen s0 notices 0\naudit forged 0 alike 0 intruded 0 limit 1\nagree yes\nhistory 33\n0 s0 command ack 0 says update\n1 m0 took 0.0 says porequest\n2 m1 took 0.0 says porequest\n3 m1 took 1.0 says poack poack\n4 m2 took 1.0 says poack\n5 m3 took 1.0 says poack\n6 m0 took 2.0 says poack poack\n7 m2 took 2.0 says poack\n8 m3 took 2.0 says poack\n9 m0 took 3.0\n10 m2 took 3.0\n11 m3 took 3.0\n12 m0 took 3.1\n13 m2 took 3.1\n14 m3 took 3.1\n15 m0 took 4.0\n16 m1 took 4.0\n17 m3 took 4.0\n18 m0 took 5.0\n19 m1 took 5.0\n20 m2 took 5.0\n21 m1 took 6.0\n22 m2 took 6.0\n23 m3 took 6.0\n24 m1 took 6.1\n25 m2 took 6.1\n26 m3 took 6.1\n27 m0 took 7.0\n28 m1 took 7.0\n29 m3 took 7.0\n30 m0 took 8.0\n31 m1 took 8.0\n32 m2 took 8.0\n";

/// Runs a command over the scenario, the script, no words and a history, where one load fails (0: none) and one put.
fn run<R: Threads + Wait + Sync>(
    rt: &R,
    alloc: Global,
    line: &str,
    history: &[u8],
    failing_load: u64,
    failing_put: u64,
) -> Result<Ending, Fail> {
    let files = [
        ("scenario", SCENARIO.as_bytes()),
        ("script", SCRIPT.as_bytes()),
        ("words", "".as_bytes()),
        ("history", history),
    ];
    let failing = Failing {
        load: failing_load,
        put: failing_put,
        line: 0,
    };
    call_failing(rt, alloc, line, &files, failing)
}

#[test]
fn a_play_is_printed_and_replayed(rt: HostRuntime) -> Result<(), Fail> {
    for (line, history) in [
        ("play scenario script words", "".as_bytes()),
        ("replay scenario history", TEXT),
    ] {
        let ending = run(&rt, rt.alloc(), line, history, 0, 0)?;
        assert_eq!(rt; ending.status, 0, "{line}");
        assert!(rt; ending.line.is_empty(), "{line}");
        assert_eq!(rt; ending.put.as_slice(), TEXT, "{line}");
    }
    Ok(())
}

#[test]
fn a_failing_output_and_each_failing_load_are_told(rt: HostRuntime) -> Result<(), Fail> {
    let ending = run(&rt, rt.alloc(), "play scenario script words", &[], 0, 2)?;
    assert_eq!(rt; ending.status, 6);
    assert_eq!(rt; ending.line.as_slice(), b"spire: output fault\n".as_slice());
    assert_eq!(rt; ending.put.len(), 512);
    for load in 1..4u64 {
        let ending = run(&rt, rt.alloc(), "play scenario script words", &[], load, 0)?;
        assert_eq!(rt; ending.status, 3);
        assert!(rt; ending.put.is_empty());
    }
    Ok(())
}

#[test]
fn a_history_that_none_can_have_is_named(rt: HostRuntime) -> Result<(), Fail> {
    // The first entry is a tick of a master that isn't there, and then one of the screen, at which it says nothing.
    let ending = run(
        &rt,
        rt.alloc(),
        "replay scenario history",
        b"spire 1\nhistory 1\n0 m4 tick\n",
        0,
        0,
    )?;
    assert_eq!(rt; ending.status, 5);
    assert_eq!(rt;
        ending.line.as_slice(),
        b"spire: history NotLegal 0\n".as_slice()
    );
    let ending = run(
        &rt,
        rt.alloc(),
        "replay scenario history",
        b"spire 1\nhistory 1\n0 s0 tick says update\n",
        0,
        0,
    )?;
    assert_eq!(rt; ending.status, 5);
    assert!(rt; ending.put.is_empty());
    Ok(())
}
