//! Files, the output and the error output that fail, one call after another.
use crate::calls::{Failing, Given, PLAY, ended, text_by};
use std::alloc::Global;
use std::sync::Wait;
use std::test::Fail;
use std::thread::Threads;

/// A plant with an alarm and an interlock. Few hashes make the keys.
const PLANT: &str = "levels = [5]
screens = 1
[[proxy]]
coils = 2
discrete = 0
holding = 1
input = 1
[[proxy]]
coils = 2
discrete = 0
holding = 0
input = 0
[[point]]
name = \"feeder_amps\"
proxy = 0
area = \"input\"
place = 0
scale = 10
low = 0
high = 20000
[[point]]
name = \"breaker\"
proxy = 0
area = \"coil\"
place = 0
low = 0
high = 1
[[point]]
name = \"pump\"
proxy = 1
area = \"coil\"
place = 9
low = 0
high = 1
[[alarm]]
name = \"overload\"
point = \"feeder_amps\"
kind = \"high\"
limit = 9000
band = 500
[[interlock]]
name = \"no_close\"
point = \"breaker\"
value = 1
deny = \"alarm overload\"
";

/// The current rises, the breaker may not be closed, and the pump isn't there.
const SHIFT: &str = "field p0 input 0 950
poll p0
flow 4
tick masters
flow 1
tick m0
flow 5
command s0 set 1 1
command s0 ack 0
command s0 set 1 0
command s0 set 2 1
flow 4
tick masters
flow 1
tick m0
flow 5
";

const GIVEN: Given<'static> = Given {
    keys: PLANT,
    script: SHIFT,
    words: "",
    history: "",
};

fn failing(load: u64, put: u64, line: u64) -> Failing {
    Failing { load, put, line }
}

/// The text goes in pieces of 512 bytes, and nothing is put after the first that fails.
#[test]
fn each_failing_put_leaves_the_pieces_before_it(rt: HostRuntime) -> Result<(), Fail> {
    let whole = text_by(&rt, rt.alloc(), PLAY, GIVEN)?;
    assert_eq!(rt; whole.as_str().len(), 7403);
    for before in 0..15u64 {
        let ending = ended(&rt, rt.alloc(), PLAY, GIVEN, failing(0, before + 1, 0))?;
        assert_eq!(rt; ending.status, 6);
        assert_eq!(rt; ending.line.as_str(), "spire: output fault\n");
        assert_eq!(rt; ending.text.as_str().len() as u64, 512 * before);
        assert!(rt; whole.as_str().starts_with(ending.text.as_str()));
    }
    Ok(())
}

/// The line of a command of which a load fails, and which puts nothing.
fn fault_of<R: Threads + Wait + Sync>(
    rt: &R,
    alloc: Global,
    command: &str,
    load: u64,
) -> Result<String, Fail> {
    let ending = ended(rt, alloc, command, GIVEN, failing(load, 0, 0))?;
    ending.refused(3)
}

#[test]
fn each_failing_load_is_named(rt: HostRuntime) -> Result<(), Fail> {
    let line = fault_of(&rt, rt.alloc(), PLAY, 1)?;
    assert_eq!(rt; line.as_str(), "spire: file scenario fault\n");
    let line = fault_of(&rt, rt.alloc(), PLAY, 2)?;
    assert_eq!(rt; line.as_str(), "spire: file script fault\n");
    let line = fault_of(&rt, rt.alloc(), PLAY, 3)?;
    assert_eq!(rt; line.as_str(), "spire: file words fault\n");
    let line = fault_of(&rt, rt.alloc(), "replay scenario history", 2)?;
    assert_eq!(rt; line.as_str(), "spire: file history fault\n");
    Ok(())
}

/// The status is the same where its line can't be told.
#[test]
fn a_failing_error_output_changes_no_status(rt: HostRuntime) -> Result<(), Fail> {
    let ending = ended(&rt, rt.alloc(), PLAY, GIVEN, failing(1, 0, 1))?;
    assert_eq!(rt; ending.status, 3);
    assert!(rt; ending.line.is_empty());
    let ending = ended(&rt, rt.alloc(), PLAY, GIVEN, failing(0, 1, 1))?;
    assert_eq!(rt; ending.status, 6);
    let whole = text_by(&rt, rt.alloc(), PLAY, GIVEN)?;
    let ending = ended(&rt, rt.alloc(), PLAY, GIVEN, failing(0, 0, 1))?;
    assert_eq!(rt; ending.status, 0);
    assert!(rt; ending.text.as_str() == whole.as_str());
    Ok(())
}
