ghost use Rattle.std.specs.Prelude.{◌≡◌, ◌<◌, length, IfOk};

use client_roles::{answer_at_proxy, answer_at_screen};
use field_proxy::Proxy;
use master_points::Plant;
use message_types::{Body, Op};
use operator_screen::Screen;
use plain_lists::{Bytes, Copied, Items, Text, Want};
use play_words::{Input, Word};
use point_table::{Area, DeviceSizes, Point};
use quorum_sets::Sizes;
use std::alloc::Global;
use std::process::Abort;
use std::test::Fail;
use world_entries::{Entry, Event};

fn devices(alloc: Global) -> Result<Items<DeviceSizes>, Want>
    ensures { IfOk result (λ devices. length devices ≡ 1) }
{
    let mut devices = Items::new(alloc);
    devices.push(DeviceSizes {
        coils: 1,
        discrete: 0,
        holding: 0,
        input: 0,
    })?;
    Ok(devices)
}

fn points(alloc: Global) -> Result<Items<Point>, Want>
    ensures { IfOk result (λ points. length points ≡ 1) }
{
    let mut points = Items::new(alloc);
    points.push(Point {
        name: Text::from_str(alloc, "breaker")?,
        proxy: 0,
        area: Area::Coil,
        place: 0,
        scale: 1,
        offset: 0,
        low: 0,
        high: 1,
        start: 0,
    })?;
    Ok(points)
}

/// A breaker behind proxy 0.
fn proxy(alloc: Global) -> Result<Proxy, Fail> {
    let plant = Plant {
        devices: devices(alloc)?,
        points: points(alloc)?,
        alarms: Items::new(alloc),
        interlocks: Items::new(alloc),
    };
    Ok(Proxy::make(alloc, 0, Sizes::new(1, 0)?, &plant)?)
}

/// How many words a proxy says at a copy of this event.
fn many_said(
    rt: &impl Abort,
    alloc: Global,
    proxy: &mut Proxy,
    event: &Event,
) -> Result<usize, Want> {
    assert!(rt; proxy.updates() < 8);
    Ok(answer_at_proxy(alloc, proxy, &event.copy()?, 4)?.len())
}

#[test]
fn a_proxy_says_a_change_once(rt: HostRuntime) -> Result<(), Fail> {
    let alloc = rt.alloc();
    let mut proxy = proxy(alloc)?;
    let change = Event::Field {
        area: Area::Coil,
        place: 0,
        value: 1,
    };
    let events = [change, Event::Poll, Event::Poll];
    for (event, many) in events.iter().zip([0, 1, 0]) {
        assert_eq!(rt; many_said(&rt, alloc, &mut proxy, event)?, many);
    }
    Ok(())
}

#[test]
fn a_screen_says_a_command_where_there_is_room(rt: HostRuntime) -> Result<(), Fail> {
    let alloc = rt.alloc();
    let mut screen = Screen::make(alloc, 1, Sizes::new(1, 0)?);
    let command = Event::Command {
        op: Op::Ack { alarm: 7 },
    };
    assert_eq!(rt; answer_at_screen(alloc, &mut screen, &command, 0)?.len(), 0);
    assert!(rt; screen.commands() < 8);
    let said = answer_at_screen(alloc, &mut screen, &command, 1)?;
    assert_eq!(rt; said.len(), 1);
    assert_eq!(rt; screen.commands(), 1);
    let entry = Entry {
        stamp: 3,
        actor: 5,
        event: command,
        said: Items::from_vec(alloc, said),
    };
    assert_eq!(rt; entry.copy()?.said.len(), 1);
    Ok(())
}

#[test]
fn a_word_is_copied(rt: HostRuntime) -> Result<(), Fail> {
    let alloc = rt.alloc();
    let mut to = Items::new(alloc);
    to.push(2)?;
    let input = Input::Say {
        to,
        word: Word::Raw {
            bytes: Bytes::from_slice(alloc, &[1, 2, 3])?,
        },
    };
    let copied = input.copy()?;
    match &copied {
        Input::Say {
            to,
            word: Word::Raw { bytes },
        } => {
            assert_eq!(rt; to.len(), 1);
            assert_eq!(rt; bytes.len(), 3);
        }
        _ => assert!(rt; false),
    }
    Ok(())
}
