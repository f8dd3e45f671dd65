ghost use Rattle.std.specs.Prelude.{◌≡◌, ◌<◌, length, IfOk};

use field_device::NoPlace;
use field_proxy::{Proxy, Write};
use master_points::Plant;
use message_types::{Op, Order, Update, Voucher};
use plain_lists::{Items, Text, Want};
use point_table::{Area, DeviceSizes, Point};
use quorum_sets::Sizes;
use std::alloc::Global;
use std::process::Abort;
use std::test::Fail;

fn point(
    alloc: Global,
    name: &str,
    proxy: u32,
    area: Area,
    place: u16,
    scale: i64,
) -> Result<Point, Want> {
    Ok(Point {
        name: Text::from_str(alloc, name)?,
        proxy,
        area,
        place,
        scale,
        offset: 0,
        low: 0,
        high: 20000,
        start: 0,
    })
}

fn sizes_of(coils: u16, holding: u16, input: u16) -> DeviceSizes {
    DeviceSizes {
        coils,
        discrete: 0,
        holding,
        input,
    }
}

fn devices(alloc: Global) -> Result<Items<DeviceSizes>, Want>
    ensures { IfOk result (λ devices. length devices ≡ 2) }
{
    let mut devices = Items::new(alloc);
    devices.push(sizes_of(2, 1, 1))?;
    devices.push(sizes_of(2, 0, 0))?;
    Ok(devices)
}

fn points(alloc: Global) -> Result<Items<Point>, Want>
    ensures { IfOk result (λ points. length points ≡ 3) }
{
    let mut points = Items::new(alloc);
    points.push(point(alloc, "feeder_amps", 0, Area::Input, 0, 10)?)?;
    points.push(point(alloc, "breaker", 0, Area::Coil, 0, 1)?)?;
    points.push(point(alloc, "pump", 1, Area::Coil, 9, 1)?)?;
    Ok(points)
}

/// A feeder and a breaker behind proxy 0, and a pump behind proxy 1 at a place that its device lacks.
fn proxy(alloc: Global, client: u32) -> Result<Proxy, Fail>
    requires { client < 2 }
{
    let plant = Plant {
        devices: devices(alloc)?,
        points: points(alloc)?,
        alarms: Items::new(alloc),
        interlocks: Items::new(alloc),
    };
    let sizes = Sizes::new(1, 0)?;
    Ok(Proxy::make(alloc, client, sizes, &plant)?)
}

fn polled(rt: &impl Abort, proxy: &mut Proxy, room: u64) -> Result<Vec<Update>, Want> {
    assert!(rt; proxy.updates() < 8);
    proxy.poll(room)
}

fn write(client: u32, number: u64, point: u32, raw: u16) -> Voucher {
    Voucher {
        client,
        number,
        order: Order::Write { point, raw },
    }
}

fn kept(number: u64, point: u32, raw: u16, exception: Option<u8>) -> Write {
    Write {
        number,
        point,
        raw,
        exception,
    }
}

fn reading(t: u64, point: u32, value: i64) -> Update {
    Update {
        client: 0,
        t,
        op: Op::Reading { point, value },
    }
}

/// Has a proxy take what these masters vouch for.
fn take(proxy: &mut Proxy, votes: &[(u32, Voucher)]) -> Result<(), Want> {
    for (signer, voucher) in votes {
        proxy.take_voucher(*signer, voucher)?;
    }
    Ok(())
}

#[test]
fn writes_wait_for_two_masters_and_their_turn(rt: HostRuntime) -> Result<(), Fail> {
    let mut proxy = proxy(rt.alloc(), 0)?;
    let votes = [
        (0, write(0, 2, 1, 1)),
        (1, write(0, 2, 1, 1)),
        (0, write(0, 1, 1, 0)),
        (0, write(0, 1, 1, 0)),
        (3, write(0, 1, 2, 0)),
        (4, write(0, 1, 1, 0)),
    ];
    take(&mut proxy, &votes)?;
    assert!(rt; proxy.writes().is_empty());
    take(&mut proxy, &[(2, write(0, 1, 1, 0))])?;
    assert_eq!(rt;
        proxy.writes(),
        [kept(1, 1, 0, None), kept(2, 1, 1, None)].as_slice()
    );
    // Modbus V1.1b3, section 6.5, behind the header of the guide's section 3.1.3: transactions 1 and 2, 6 bytes, unit 1
    assert_eq!(rt; proxy.exchanges().len(), 2);
    assert!(rt;
        proxy.exchanges()[0].request.as_slice() == b"\0\x01\0\0\0\x06\x01\x05\0\0\0\0".as_slice()
    );
    assert!(rt;
        proxy.exchanges()[1].reply.as_slice() == b"\0\x02\0\0\0\x06\x01\x05\0\0\xff\0".as_slice()
    );
    Ok(())
}

#[test]
fn a_place_that_lacks_is_written_with_an_exception(rt: HostRuntime) -> Result<(), Fail> {
    let mut proxy = proxy(rt.alloc(), 1)?;
    let vote = write(1, 1, 2, 1);
    take(&mut proxy, &[(0, vote), (2, vote)])?;
    assert_eq!(rt; proxy.writes(), [kept(1, 2, 1, Some(2))].as_slice());
    assert!(rt; polled(&rt, &mut proxy, 8)?.is_empty());
    Ok(())
}

#[test]
fn a_poll_says_what_is_new(rt: HostRuntime) -> Result<(), Fail> {
    let mut proxy = proxy(rt.alloc(), 0)?;
    assert_eq!(rt; proxy.change(Area::Coil, 2, 1), Err(NoPlace));
    assert_eq!(rt; proxy.change(Area::Input, 0, 950), Ok(()));
    let first = polled(&rt, &mut proxy, 1)?;
    assert!(rt; first.as_slice() == [reading(1, 0, 9500)].as_slice());
    let second = polled(&rt, &mut proxy, 8)?;
    assert!(rt; second.as_slice() == [reading(2, 1, 0)].as_slice());
    assert!(rt; polled(&rt, &mut proxy, 8)?.is_empty());
    Ok(())
}

/// How many exchanges a poll tells that was broken off. The device counts no requests, so no contract says that none that passed is
/// missing: `rt try --test --fail-alloc N` refuses one allocation, and the numbers printed have to go from 0 to 2 as N grows.
#[test]
fn what_passed_before_a_want_is_told(rt: HostRuntime) -> Result<(), Fail> {
    let mut proxy = proxy(rt.alloc(), 0)?;
    assert!(rt; proxy.broken_off().is_empty());
    if polled(&rt, &mut proxy, 8).is_err() {
        println!(rt; "a poll told {}", proxy.broken_off().len())?;
        assert_eq!(rt; polled(&rt, &mut proxy, 8)?.len(), 2);
    }
    assert_eq!(rt; proxy.exchanges().len(), 2);
    assert!(rt; proxy.broken_off().is_empty());
    Ok(())
}
