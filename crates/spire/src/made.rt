use run_commands::{made_scenario, made_script, summary};
use std::test::Fail;

#[test]
fn the_seventh_run_is_the_known_one(rt: HostRuntime) -> Result<(), Fail> {
    let scenario = made_scenario(rt.alloc(), 7)?;
    assert_eq!(rt; scenario.as_str().len(), 625);
    assert!(rt;
        scenario.as_str().starts_with(
            "f = 1\nseed = \"0000000000000000000000000000000000000000000000000000000000000007\"\nscreens = 1\n[[proxy]]\ncoils = 2\n"
        )
    );
    let script = made_script(rt.alloc(), 7)?;
    assert_eq!(rt; script.as_str().len(), 2719);
    assert!(rt;
        script.as_str().starts_with(
            "field p0 input 0 1377\npoll p0\ncommand s0 set 1 1\nflow 4\ntick masters\nflow 1\ntick m0\nflow 5\nfield p0 input 0 1018\n"
        )
    );
    Ok(())
}

#[test]
fn a_summary_has_the_lines_of_whole_actors(rt: HostRuntime) -> Result<(), Fail> {
    let text =
        b"spire 1\nmaster m0 view 0 executed 1\n1 s0 1 ack 0\nscreen s0 notices 0\nagree yes\nhistory 1\n0 s0 command ack 0 says update\n";
    let made = summary(rt.alloc(), text.as_slice())?;
    assert_eq!(rt;
        made.as_slice(),
        b"spire 1\nmaster m0 view 0 executed 1\nscreen s0 notices 0\nagree yes\nhistory 1\n".as_slice()
    );
    Ok(())
}
