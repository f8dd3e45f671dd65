ghost use Rattle.std.specs.Prelude.{◌≡◌, ◌≤ℤ◌, pos, length, IfOk};
ghost use Rattle.point_table.specs.Point.{IsUsable};
ghost use Rattle.point_table.specs.Table.{AreUsable};
ghost use Rattle.master_points.specs.Orders.{AreOwned, IsPlant};

use alarm_rules::{AlarmKind, AlarmRule, Alarms};
use interlocks::{Interlock, Rule, RuleRefusal};
use master_points::{Master, Plant};
use message_types::{Notice, NoticeKind, Op, Order, Update};
use plain_lists::{Copied, Items, Text, Want};
use point_table::{Area, DeviceSizes, Point, Points};
use std::alloc::Global;
use std::test::Fail;

fn point(
    alloc: Global,
    name: &str,
    proxy: u32,
    area: Area,
    place: u16,
    scale: i64,
    high: i64,
) -> Result<Point, Want>
    requires scale { (pos 1 ≤ℤ scale) × (scale ≤ℤ pos 10) }
    requires high { pos 0 ≤ℤ high }
    ensures usable { IfOk result IsUsable }
    ensures proxy { IfOk result (λ p. p.proxy ≡ proxy) }
{
    Ok(Point {
        name: Text::from_str(alloc, name)?,
        proxy,
        area,
        place,
        scale,
        offset: 0,
        low: 0,
        high,
        start: 0,
    })
}

fn overload(alloc: Global) -> Result<AlarmRule, Want> {
    Ok(AlarmRule {
        name: Text::from_str(alloc, "overload")?,
        point: 0,
        kind: AlarmKind::High,
        limit: 9000,
        band: 500,
    })
}

/// Keeps the breaker open while the feeder is overloaded.
fn no_close(alloc: Global) -> Result<Interlock, RuleRefusal> {
    let names = Points::make(alloc, &[])?;
    let alarms = Alarms::make(alloc, &[overload(alloc)?])?;
    let deny = Rule::read(alloc, "alarm overload", &names, &alarms)?;
    Ok(Interlock {
        name: Text::from_str(alloc, "no_close")?,
        point: 1,
        value: Some(1),
        deny,
    })
}

fn devices(alloc: Global) -> Result<Items<DeviceSizes>, Want>
    ensures { IfOk result (λ devices. length devices ≡ 2) }
{
    let sizes = DeviceSizes {
        coils: 2,
        discrete: 0,
        holding: 1,
        input: 1,
    };
    let mut devices = Items::new(alloc);
    devices.push(sizes)?;
    devices.push(sizes)?;
    Ok(devices)
}

/// A feeder's current, a breaker and a pump.
fn points(alloc: Global) -> Result<Items<Point>, Want>
    ensures many { IfOk result (λ points. length points ≡ 3) }
    ensures usable { IfOk result AreUsable }
    ensures owned { IfOk result (AreOwned 2) }
{
    let mut points = Items::new(alloc);
    points.push(point(alloc, "feeder_amps", 0, Area::Input, 0, 10, 20000)?)?;
    points.push(point(alloc, "breaker", 0, Area::Coil, 0, 1, 1)?)?;
    points.push(point(alloc, "pump", 1, Area::Coil, 9, 1, 1)?)?;
    Ok(points)
}

fn alarms(alloc: Global) -> Result<Items<AlarmRule>, Want>
    ensures { IfOk result (λ alarms. length alarms ≡ 1) }
{
    let mut alarms = Items::new(alloc);
    alarms.push(overload(alloc)?)?;
    Ok(alarms)
}

fn interlocks(alloc: Global) -> Result<Items<Interlock>, RuleRefusal>
    ensures { IfOk result (λ interlocks. length interlocks ≡ 1) }
{
    let mut interlocks = Items::new(alloc);
    interlocks.push(no_close(alloc)?)?;
    Ok(interlocks)
}

/// Two devices with their points, one alarm and one interlock.
fn plant(alloc: Global) -> Result<Plant, RuleRefusal>
    ensures { IfOk result (λ plant. IsPlant plant 1) }
{
    let devices = devices(alloc)?;
    let points = points(alloc)?;
    let alarms = alarms(alloc)?;
    let interlocks = interlocks(alloc)?;
    Ok(Plant {
        devices,
        points,
        alarms,
        interlocks,
    })
}

fn apply(master: &mut Master, client: u32, t: u64, op: Op) -> Result<(), Want> {
    if client >= master.clients() {
        return Err(Want);
    }
    master.apply(&Update { client, t, op })
}

fn orders(master: &Master, client: u32) -> Option<&[Order]> {
    if client < master.clients() {
        Some(master.orders(client))
    } else {
        None
    }
}

fn notice(what: NoticeKind, t: u64, number: u32) -> Order {
    Order::Notice(Notice { what, t, number })
}

/// A master over a copy of that plant, with one screen.
fn master(alloc: Global) -> Result<Master, RuleRefusal> {
    let plant = plant(alloc)?.copy()?;
    Ok(Master::make(alloc, &plant, 1)?)
}

/// Has a master apply two proxies' readings, and then what an operator asks for.
fn apply_all(master: &mut Master) -> Result<(), Want> {
    let overloaded = Op::Reading {
        point: 0,
        value: 9500,
    };
    for (client, t, op) in [
        (0, 1, overloaded),
        (1, 2, Op::Reading { point: 1, value: 0 }),
        (2, 1, Op::Set { point: 1, value: 1 }),
        (2, 2, Op::Ack { alarm: 0 }),
        (2, 3, Op::Set { point: 1, value: 0 }),
        (2, 4, Op::Set { point: 2, value: 1 }),
    ] {
        apply(master, client, t, op)?;
    }
    Ok(())
}

#[test]
fn a_plant_as_users_have_it(rt: HostRuntime) -> Result<(), Fail> {
    let mut master = master(rt.alloc())?;
    let master = &mut master;
    apply_all(master)?;
    let shown = [
        notice(NoticeKind::Raised, 0, 0),
        notice(NoticeKind::Denied, 1, 0),
        notice(NoticeKind::Done, 2, 0),
        notice(NoticeKind::Done, 3, 0),
        notice(NoticeKind::Done, 4, 0),
    ];
    assert_eq!(rt; orders(master, 2), Some(shown.as_slice()));
    let writes = [Order::Write { point: 1, raw: 0 }];
    assert_eq!(rt; orders(master, 0), Some(writes.as_slice()));
    let writes = [Order::Write { point: 2, raw: 1 }];
    assert_eq!(rt; orders(master, 1), Some(writes.as_slice()));
    Ok(())
}
