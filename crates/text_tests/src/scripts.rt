//! Lines whose verdicts another reader of these files gave, written from the same grammar by somebody else.
ghost use Rattle.scenario_file.specs.Reading.{contents};
ghost use Rattle.scenario_file.specs.Valid.{IsScenario};

use scenario_file::Scenario;
use script_lines::{Line, Script, ScriptRefusal, Step, Ticking, Words, inputs};
use std::alloc::Global;
use std::test::Fail;

/// Four masters of which m3 is intruded, one proxy and one screen.
const SCENARIO: &str = "f = 1
seed = \"0000000000000000000000000000000000000000000000000000000000000000\"
screens = 1
intruded = [3]
[[proxy]]
coils = 2
discrete = 0
holding = 1
input = 1
";

const FINE_STEPS: &str = "tick m0
tick masters 1000
tick all
flow
flow 3
lose p0
heal s0
drop
take m0 s0.update.1
take m0 m0.mark.18446744073709551615
command s0 set 0 5
command s0 set 0 -5
command s0 set 0 -0
command s0 set 0 9223372036854775807
command s0 set 0 -9223372036854775808
command s0 set 4294967295 1
command s0 ack 0
field p0 coil 1 65535
field p0 holding 0 1
poll p0
cry m3
cry m3 2
restart m0
restart p0
restart s0";

const BAD_STEPS: &str = "tick m0 0
tick m0 1001
tick m0 07
tick m0 +7
tick m4 x
tick
tick m0 1 2
Tick m0
tick  m0
 tick m0
tick m0 
tick m01
tick x1
tick m
flow 0
flow m0
heal
drop 1
take m0 s0.update.0
take s9 s0.updates.1
take m0 s0.update
take m0 s0.update.1.1
take m0 m0.mark.18446744073709551616
take m0
command s0 set 0 -05
command s0 set 0 -
command s0 set 0 --5
command s0 set 0 9223372036854775808
command s0 set 0 -9223372036854775809
command s0 set 4294967296 1
command s0 ack 0 0
command s0 ack -1
command s0 set 0
command s1 ack x
command s0 get 0
command s0
field p0 coil 2 0
field p0 coil 1 65536
field p0 input 1 1
field p0 discrete 0 1
field p0 Coil 0 1
field p0 coil 0
poll p0 1
cry m3 1001
cry m9 x
restart m0 1
wait
tick\tm0";

const STEPS_OF_NOBODY: &str = "tick m4
tick m99999999999
tick m99999999999999999999999999999999
lose p1
take m0 s9.update.1
command m0 ack 0
command s1 ack 0
field p1 coil 0 1
field p1 coil 99 1
field m0 coil 99 1
poll m0
cry m2
cry p0
restart m3
restart m4";

const FINE_WORDS: &str = "m3 m0 suspect 0
m3 m0,m1,s0,p0 ping 7
m3 m1,m0,m1 ping 7
m3 m0 raw 00ff
m3 m0 raw 00FF
m3 m0 raw -
m3 m0 porequest 1 s0.update.1
m3 m0 poack 0 1 @m0.porequest.1
m3 m0 poack 0 1 @m0.preprepare.1
m3 m0 poack 4294967295 1 @m0.porequest.1
m3 m0 posummary
m3 m0 posummary 1 2 3 4 5 6 7 8 9 10 11 12 13 14
m3 m0 preprepare 0 1
m3 m0 preprepare 0 1 m0.posummary.1 m1.posummary.1 p0.posummary.1 s0.posummary.1
m3 m0 prepare 300 0 @m0.preprepare.1
m3 m0 commit 0 1 @m0.porequest.1
m3 m0 pong 0 1
m3 m0 rtt 0 1 2
m3 m0 tatreport 0 1
m3 m0 tatbound 0 1
m3 m0 suspect 18446744073709551615
m3 m0 report 1
m3 m0 report 1 1:0 2:0
m3 m0 report 1 base 8
m3 m0 report 1 base 8 9:0
m3 m0 report 1 1:0 2:0 3:0 4:0 5:0 6:0 7:0 8:0 9:0 10:0 11:0 12:0 13:0 14:0 15:0 16:0
m3 m0 newview 1 m0.report.1 m1.report.1
m3 m0 askupdate 0 1
m3 m0 give 0 1
m3 m0 askorder 1
m3 m0 giveordered 1
m3 m0 voucher 0 1 write 0 65535
m3 m0 voucher 0 1 notice 9 1 2
m3 m0 mark 8";

const BAD_WORDS: &str = "m3 m0, ping 7
m3 ,m0 ping 7
m3 m0,x ping 7
m2 m0 ping x
m3 m0
m3
m3 m0 raw 0
m3 m0 raw
m3 m0 raw 
m3 m0 raw zz
m3 m0 raw 00 11
m3 m0 update 0 1 ack 0
m3 m0 updates
m3 m0 porequest 1 m0.porequest.1
m3 m0 porequest 1
m3 m0 porequest 1 s4.updates.1
m3 m0 poack 0 1 m0.porequest.1
m3 m0 poack 0 1 @m0.commit.1
m3 m0 poack 4294967296 1 @m0.porequest.1
m3 m0 posummary 1 2 3 4 5 6 7 8 9 10 11 12 13 14 15
m3 m0 posummary 1 x
m3 m0 preprepare 0 1 m1.posummary.1 m0.posummary.1
m3 m0 preprepare 0 1 m0.posummary.1 m0.posummary.2
m3 m0 preprepare 0 1 m10.posummary.1 m9.posummary.1
m3 m0 preprepare 0 1 m0.report.1
m3 m0 preprepare 0
m3 m0 prepare 0 1 @m0.preprepare
m3 m0 pong 4294967296 1
m3 m0 rtt 0 1
m3 m0 tatbound 0
m3 m0 suspect 18446744073709551616
m3 m0 report 1 2:0 1:0
m3 m0 report 1 1:0 1:0
m3 m0 report 1 base
m3 m0 report 1 9:0 base 8
m3 m0 report 1 base 8:0
m3 m0 report 1 1
m3 m0 report 1 1:0:0
m3 m0 report
m3 m0 report 1 1:0 2:0 3:0 4:0 5:0 6:0 7:0 8:0 9:0 10:0 11:0 12:0 13:0 14:0 15:0 16:0 17:0
m3 m0 newview 1 m0.posummary.1
m3 m0 newview
m3 m0 voucher 0 1 write 0 65536
m3 m0 voucher 0 1 notice 0 1 2
m3 m0 voucher 0 1 notice 10 1 2
m3 m0 voucher 0 1 note 1 1 2
m3 m0 voucher 0 1
m3 m0 mark 8 9";

const WORDS_OF_NOBODY: &str = "m3 m0,m9 ping 7
m2 m0 ping 7
m9 m0 ping 7
s0 m0 ping 7
m3 m0 porequest 1 s4.update.1
m3 m0 preprepare 0 1 m0.posummary.1 m9.posummary.1 m10.posummary.1
m3 m0 commit 0 1 @m4.porequest.1";

fn script_refusal(alloc: Global, line: &str, scenario: &Scenario) -> Option<ScriptRefusal>
    requires { IsScenario (contents scenario.now) }
{
    match Script::read(alloc, line.as_bytes(), scenario) {
        Ok(_) => None,
        Err(refusal) => Some(refusal),
    }
}

fn words_refusal(alloc: Global, line: &str, scenario: &Scenario) -> Option<ScriptRefusal>
    requires { IsScenario (contents scenario.now) }
{
    match Words::read(alloc, line.as_bytes(), scenario) {
        Ok(_) => None,
        Err(refusal) => Some(refusal),
    }
}

#[test]
fn each_line_of_a_script_has_its_verdict(rt: HostRuntime) -> Result<(), Fail> {
    let scenario = Scenario::read(rt.alloc(), SCENARIO.as_bytes())?;
    for line in FINE_STEPS.lines() {
        assert_eq!(rt; script_refusal(rt.alloc(), line, &scenario), None);
    }
    for line in BAD_STEPS.lines() {
        let bad = ScriptRefusal::BadLine { line: 1 };
        assert_eq!(rt; script_refusal(rt.alloc(), line, &scenario), Some(bad));
    }
    for line in STEPS_OF_NOBODY.lines() {
        let nobody = ScriptRefusal::NoActor { line: 1 };
        assert_eq!(rt; script_refusal(rt.alloc(), line, &scenario), Some(nobody));
    }
    Ok(())
}

#[test]
fn each_line_of_words_has_its_verdict(rt: HostRuntime) -> Result<(), Fail> {
    let scenario = Scenario::read(rt.alloc(), SCENARIO.as_bytes())?;
    for line in FINE_WORDS.lines() {
        assert_eq!(rt; words_refusal(rt.alloc(), line, &scenario), None);
    }
    for line in BAD_WORDS.lines() {
        let bad = ScriptRefusal::BadLine { line: 1 };
        assert_eq!(rt; words_refusal(rt.alloc(), line, &scenario), Some(bad));
    }
    for line in WORDS_OF_NOBODY.lines() {
        let nobody = ScriptRefusal::NoActor { line: 1 };
        assert_eq!(rt; words_refusal(rt.alloc(), line, &scenario), Some(nobody));
    }
    Ok(())
}

/// The third line ends with a carriage return too, and the last without a line feed.
const SCRIPT: &str =
    "# begin\n\ntick all 2\r\ncommand s0 set 7 -3\ncry m3 2\ncry m3\ncry m3\npoll p0\nrestart s0";

#[test]
fn a_script_gives_its_actors_their_inputs(rt: HostRuntime) -> Result<(), Fail> {
    let scenario = Scenario::read(rt.alloc(), SCENARIO.as_bytes())?;
    let script = Script::read(rt.alloc(), SCRIPT.as_bytes(), &scenario)?;
    let words = Words::read(
        rt.alloc(),
        b"m3 m1,m0,m1 report 1 base 8 9:0\nm3 s0 mark 8\nm3 m0 raw -\n".as_slice(),
        &scenario,
    )?;
    let first = Line {
        number: 3,
        step: Step::Tick {
            who: Ticking::All,
            times: 2,
        },
    };
    let lines = script.lines();
    assert_eq!(rt; lines.len(), 7);
    assert_eq!(rt; lines[0], first);
    let given = inputs(rt.alloc(), &scenario, &script, &words)?;
    assert_eq!(rt; given.len(), 6);
    assert_eq!(rt; given[3].len(), 3);
    assert_eq!(rt; given[5].len(), 2);
    Ok(())
}
