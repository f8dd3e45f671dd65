use alarm_rules::{AlarmKind, AlarmRule, Alarms, Change, NoAlarm};
use plain_lists::{Copied, Text, Want};
use std::alloc::Global;
use std::test::Fail;

fn overload(alloc: Global) -> Result<AlarmRule, Want> {
    Ok(AlarmRule {
        name: Text::from_str(alloc, "overload")?,
        point: 0,
        kind: AlarmKind::High,
        limit: 9000,
        band: 500,
    })
}

#[test]
fn an_overload_is_raised_and_cleared(rt: HostRuntime) -> Result<(), Fail> {
    let rule = overload(rt.alloc())?.copy()?;
    let mut alarms = Alarms::make(rt.alloc(), &[rule])?;
    assert_eq!(rt; alarms.find("overload"), Some(0));
    let raised = [Change::Raised { alarm: 0 }];
    let cleared = [Change::Cleared { alarm: 0 }];
    for (value, told, is_raised) in [
        (9000, raised.as_slice(), true),
        (8500, &raised[..0], true),
        (8499, cleared.as_slice(), false),
    ] {
        assert_eq!(rt; alarms.see(0, value)?.as_slice(), told);
        assert_eq!(rt; alarms.raised(0), is_raised);
    }
    assert_eq!(rt; alarms.acknowledge(0), Err(NoAlarm));
    assert_eq!(rt; alarms.acknowledge(1), Err(NoAlarm));
    let _ = alarms.see(0, 20000)?;
    assert_eq!(rt; alarms.acknowledge(0), Ok(()));
    Ok(())
}
