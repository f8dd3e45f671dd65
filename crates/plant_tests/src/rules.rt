ghost use Rattle.std.specs.Prelude.{◌≤ℤ◌, pos, IfOk};
ghost use Rattle.point_table.specs.Point.{IsUsable};

use alarm_rules::{AlarmKind, AlarmRule, Alarms};
use interlocks::{Rule, RuleRefusal};
use plain_lists::{Copied, Text, Want};
use point_table::{Area, Point, Points};
use std::alloc::Global;
use std::test::Fail;

fn point(alloc: Global, name: &str, area: Area, high: i64) -> Result<Point, Want>
    requires { pos 0 ≤ℤ high }
    ensures { IfOk result IsUsable }
{
    Ok(Point {
        name: Text::from_str(alloc, name)?,
        proxy: 0,
        area,
        place: 0,
        scale: 1,
        offset: 0,
        low: 0,
        high,
        start: 0,
    })
}

/// A breaker and the current of its feeder.
fn feeder(alloc: Global) -> Result<Points, Want> {
    let breaker = point(alloc, "breaker", Area::Coil, 1)?;
    let amps = point(alloc, "feeder_amps", Area::Input, 20000)?;
    Points::make(alloc, &[breaker, amps])
}

/// Whether the rule holds once the feeder's points have these values. None where they can't have them.
fn holds_at(
    rule: &Rule,
    points: &mut Points,
    alarms: &Alarms,
    breaker: i64,
    amps: i64,
) -> Option<bool> {
    points.set(0, breaker).ok()?;
    points.set(1, amps).ok()?;
    Some(rule.holds(points, alarms))
}

/// One alarm, which isn't raised.
fn overload(alloc: Global) -> Result<Alarms, Want> {
    let rule = AlarmRule {
        name: Text::from_str(alloc, "overload")?,
        point: 0,
        kind: AlarmKind::High,
        limit: 9000,
        band: 500,
    };
    Alarms::make(alloc, &[rule])
}

/// Why a text is no rule over that alarm.
fn refusal_of(alloc: Global, text: &str) -> Result<Option<RuleRefusal>, Want> {
    let points = Points::make(alloc, &[])?;
    let alarms = overload(alloc)?;
    Ok(Rule::read(alloc, text, &points, &alarms).err())
}

/// Whether a rule over that alarm holds.
fn holds_unraised(alloc: Global, text: &str) -> Result<bool, RuleRefusal> {
    let points = Points::make(alloc, &[])?;
    let alarms = overload(alloc)?;
    let rule = Rule::read(alloc, text, &points, &alarms)?.copy()?;
    Ok(rule.holds(&points, &alarms))
}

#[test]
fn rules_over_alarms_are_read_and_hold(rt: HostRuntime) -> Result<(), Fail> {
    assert_eq!(rt;
        refusal_of(rt.alloc(), "alarm overload and")?,
        Some(RuleRefusal::BadRule { place: 18 })
    );
    assert_eq!(rt;
        refusal_of(rt.alloc(), "alarm flood")?,
        Some(RuleRefusal::NoName { place: 6 })
    );
    assert_eq!(rt;
        refusal_of(rt.alloc(), "breaker >= -1 or alarm overload")?,
        Some(RuleRefusal::NoName { place: 0 })
    );
    let text = "not alarm overload or (alarm overload and not alarm overload)";
    assert!(rt; holds_unraised(rt.alloc(), text)?);
    Ok(())
}

#[test]
fn a_rule_over_points_holds_by_their_values(rt: HostRuntime) -> Result<(), Fail> {
    let alloc = rt.alloc();
    let mut points = feeder(alloc)?;
    let alarms = Alarms::make(alloc, &[])?;
    let text = "not (breaker = 1) or feeder_amps >= 100";
    let rule = Rule::read(alloc, text, &points, &alarms)?;
    assert_eq!(rt; holds_at(&rule, &mut points, &alarms, 0, 0), Some(true));
    assert_eq!(rt; holds_at(&rule, &mut points, &alarms, 1, 99), Some(false));
    assert_eq!(rt; holds_at(&rule, &mut points, &alarms, 1, 100), Some(true));
    assert_eq!(rt; holds_at(&rule, &mut points, &alarms, 0, 100), Some(true));
    Ok(())
}
