//! Plays of correct masters.
use crate::calls::{Given, ONE_COMMAND, ONE_SCREEN, shows};
use std::test::Fail;

#[test]
fn nothing_happens_without_a_line(rt: HostRuntime) -> Result<(), Fail> {
    shows(
        &rt,
        rt.alloc(),
        Given::play(ONE_SCREEN, "", ""),
        NOTHING,
        &[],
    )
}

const NOTHING: &str = "spire 1
master m0 view 0 executed 0
master m1 view 0 executed 0
master m2 view 0 executed 0
master m3 view 0 executed 0
screen s0 notices 0
audit forged 0 alike 0 intruded 0 limit 1
agree yes
history 0
";

#[test]
fn a_command_is_executed_by_all_and_shown_to_its_operator(rt: HostRuntime) -> Result<(), Fail> {
    shows(
        &rt,
        rt.alloc(),
        Given::play(ONE_SCREEN, ONE_COMMAND, ""),
        EXECUTED_BY_ALL,
        &[("history 81", 1), ("49 m0 tick says preprepare", 1)],
    )
}

const EXECUTED_BY_ALL: &str = "spire 1
master m0 view 0 executed 1
1 s0 1 ack 0
master m1 view 0 executed 1
1 s0 1 ack 0
master m2 view 0 executed 1
1 s0 1 ack 0
master m3 view 0 executed 1
1 s0 1 ack 0
screen s0 notices 1
1 noalarm 1 0
audit forged 0 alike 0 intruded 0 limit 1
agree yes
";
