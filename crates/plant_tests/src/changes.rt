//! The changes of a feeder's current and of a pump.
ghost use Rattle.std.specs.Prelude.{◌≡◌, length, IfOk};
ghost use Rattle.point_table.specs.Point.{IsUsable};
ghost use Rattle.point_table.specs.Table.{AreUsable};
ghost use Rattle.master_points.specs.Orders.{AreOwned, IsPlant};

use master_points::Plant;
use message_types::{Op, Update};
use plain_lists::{Items, Text, Want};
use point_table::{Area, DeviceSizes, Point};
use std::alloc::Global;
use std::test::Fail;
use trend_archive::{Changed, Changes, Trend, TrendAnswer};

fn point(alloc: Global, name: &str, proxy: u32, area: Area) -> Result<Point, Want>
    ensures usable { IfOk result IsUsable }
    ensures proxy { IfOk result (λ p. p.proxy ≡ proxy) }
{
    Ok(Point {
        name: Text::from_str(alloc, name)?,
        proxy,
        area,
        place: 0,
        scale: 10,
        offset: -1000,
        low: -1000,
        high: 20000,
        start: 0,
    })
}

fn devices(alloc: Global) -> Result<Items<DeviceSizes>, Want>
    ensures { IfOk result (λ devices. length devices ≡ 2) }
{
    let sizes = DeviceSizes {
        coils: 0,
        discrete: 0,
        holding: 0,
        input: 1,
    };
    let mut devices = Items::new(alloc);
    devices.push(sizes)?;
    devices.push(sizes)?;
    Ok(devices)
}

fn points(alloc: Global) -> Result<Items<Point>, Want>
    ensures many { IfOk result (λ points. length points ≡ 2) }
    ensures usable { IfOk result AreUsable }
    ensures owned { IfOk result (AreOwned 2) }
{
    let mut points = Items::new(alloc);
    points.push(point(alloc, "feeder_amps", 0, Area::Input)?)?;
    points.push(point(alloc, "pump_amps", 1, Area::Input)?)?;
    Ok(points)
}

/// Two devices with a point each, without alarms and interlocks.
fn plant(alloc: Global) -> Result<Plant, Want>
    ensures { IfOk result (λ plant. IsPlant plant 1) }
{
    let devices = devices(alloc)?;
    let points = points(alloc)?;
    let alarms = Items::new(alloc);
    let interlocks = Items::new(alloc);
    Ok(Plant {
        devices,
        points,
        alarms,
        interlocks,
    })
}

fn read(trend: &mut Trend, client: u32, point: u32, value: i64) -> Result<(), Want> {
    let t = trend.executed();
    if t >= 100 {
        return Err(Want);
    }
    trend.apply(&Update {
        client,
        t,
        op: Op::Reading { point, value },
    })
}

fn found(trend: &Trend, point: u32, first: u64, last: u64) -> Result<Vec<Changed>, TrendAnswer> {
    let Changes {
        point: _,
        first: _,
        last: _,
        items,
    } = trend.changes(point, first, last)?;
    Ok(items.into_vec())
}

fn refused(trend: &Trend, point: u32, first: u64, last: u64) -> Option<TrendAnswer> {
    match trend.changes(point, first, last) {
        Ok(_) => None,
        Err(answer) => Some(answer),
    }
}

/// A feeder's current that its proxy tells, then again, then another proxy, then out of bounds, then below 0; and a pump's.
fn trend(alloc: Global) -> Result<Trend, Want> {
    let plant = plant(alloc)?;
    let mut trend = Trend::make(alloc, &plant)?;
    for (client, point, value) in [
        (0, 0, 9500),
        (0, 0, 9500),
        (1, 0, 100),
        (0, 0, 20001),
        (0, 0, -20),
        (1, 1, 7),
    ] {
        read(&mut trend, client, point, value)?;
    }
    Ok(trend)
}

#[test]
fn a_trend_has_the_changes_of_a_range(rt: HostRuntime) -> Result<(), Fail> {
    let trend = trend(rt.alloc())?;
    let feeder = [
        Changed {
            number: 1,
            value: 9500,
        },
        Changed {
            number: 5,
            value: -20,
        },
    ];
    let pump = [Changed {
        number: 6,
        value: 7,
    }];
    assert_eq!(rt; trend.executed(), 6);
    for (point, first, last, changes) in [
        (0, 1, 6, feeder.as_slice()),
        (0, 2, 6, &feeder[1..]),
        (0, 1, 4, &feeder[..1]),
        (1, 1, 5, &feeder[..0]),
        (1, 6, 6, pump.as_slice()),
    ] {
        assert_eq!(rt; found(&trend, point, first, last)?.as_slice(), changes);
    }
    Ok(())
}

#[test]
fn a_trend_refuses_the_first_thing_wrong(rt: HostRuntime) -> Result<(), Fail> {
    let trend = trend(rt.alloc())?;
    assert_eq!(rt; refused(&trend, 2, 0, 7), Some(TrendAnswer::NoPoint));
    assert_eq!(rt; refused(&trend, 0, 0, 7), Some(TrendAnswer::BadRange));
    assert_eq!(rt; refused(&trend, 0, 3, 2), Some(TrendAnswer::BadRange));
    let far = Some(TrendAnswer::NotReached { executed: 6 });
    assert_eq!(rt; refused(&trend, 0, 1, 7), far);
    assert_eq!(rt; refused(&trend, 0, 1, 6), None);
    Ok(())
}
