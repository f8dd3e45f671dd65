//! The points and alarms that rules name.
ghost use Rattle.std.specs.Prelude.{◌≤ℤ◌, pos, IfOk};
ghost use Rattle.point_table.specs.Point.{IsUsable};

use alarm_rules::{AlarmKind, AlarmRule, Alarms};
use anyhow::Result;
use plain_lists::{Text, Want};
use point_table::{Area, Point, Points};
use std::alloc::Global;

fn point(alloc: Global, name: &str, area: Area, scale: i64, high: i64) -> Result<Point, Want>
    requires scale { (pos 1 ≤ℤ scale) × (scale ≤ℤ pos 10) }
    requires high { pos 0 ≤ℤ high }
    ensures { IfOk result IsUsable }
{
    Ok(Point {
        name: Text::from_str(alloc, name)?,
        proxy: 0,
        area,
        place: 0,
        scale,
        offset: 0,
        low: 0,
        high,
        start: 0,
    })
}

/// A feeder's current and a breaker.
pub fn points(alloc: Global) -> Result<Points> {
    let current = point(alloc, "feeder_amps", Area::Input, 10, 20000)?;
    let breaker = point(alloc, "breaker", Area::Coil, 1, 1)?;
    Ok(Points::make(alloc, &[current, breaker])?)
}

/// An alarm of too high a current.
pub fn alarms(alloc: Global) -> Result<Alarms> {
    let overload = AlarmRule {
        name: Text::from_str(alloc, "overload")?,
        point: 0,
        kind: AlarmKind::High,
        limit: 9000,
        band: 500,
    };
    Ok(Alarms::make(alloc, &[overload])?)
}
