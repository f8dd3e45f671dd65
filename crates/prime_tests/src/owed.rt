ghost use Rattle.master_points.specs.Orders.{IsPlant};

use leader_proposals::Vouchers;
use master_answers::{say_vouchers, split_words};
use master_points::{Master, Plant};
use message_types::{AskOrder, Body, Mark, Op, Ping, Update};
use plain_lists::{Items, Want};
use std::alloc::Global;
use std::test::Fail;

fn words(alloc: Global) -> Result<Vec<Body>, Want> {
    let mut words = Vec::new(alloc);
    words.push(Body::AskOrder(AskOrder { s: 2 }))?;
    words.push(Body::Ping(Ping { number: 1 }))?;
    words.push(Body::Mark(Mark { s: 3 }))?;
    Ok(words)
}

/// Each word's number, with a letter for its kind.
fn named(alloc: Global, words: &[Body]) -> Result<Vec<(char, u64)>, Want> {
    let mut names = Vec::new(alloc);
    for word in words {
        names.push(name(word))?;
    }
    Ok(names)
}

fn name(word: &Body) -> (char, u64) {
    match word {
        Body::AskOrder(ask) => ('a', ask.s),
        Body::Ping(ping) => ('p', ping.number),
        Body::Mark(mark) => ('m', mark.s),
        Body::Voucher(voucher) => ('v', voucher.number),
        _ => ('?', 0),
    }
}

fn split_names(alloc: Global) -> Result<(Vec<(char, u64)>, Vec<(char, u64)>), Want> {
    let split = split_words(alloc, words(alloc)?)?;
    Ok((named(alloc, &split.early)?, named(alloc, &split.late)?))
}

#[test]
fn asks_for_orders_and_marks_come_late(rt: HostRuntime) -> Result<(), Fail> {
    let (early, late) = split_names(rt.alloc())?;
    assert_eq!(rt; early.as_slice(), [('p', 1)].as_slice());
    assert_eq!(rt; late.as_slice(), [('a', 2), ('m', 3)].as_slice());
    Ok(())
}

/// A plant without devices, so that its screens are its only clients.
fn bare_plant(alloc: Global) -> Plant
    ensures { IsPlant result 1 }
{
    Plant {
        devices: Items::new(alloc),
        points: Items::new(alloc),
        alarms: Items::new(alloc),
        interlocks: Items::new(alloc),
    }
}

/// Has the first screen acknowledge an alarm that isn't there, which gives it a notice.
fn acknowledge(points: &mut Master, t: u64) -> Result<(), Want> {
    if points.clients() == 0 {
        return Err(Want);
    }
    points.apply(&Update {
        client: 0,
        t,
        op: Op::Ack { alarm: 0 },
    })
}

/// The words of a master that vouches and then vouches again.
fn vouch_twice(alloc: Global, points: &Master) -> Result<(Vec<Body>, Vec<Body>), Want> {
    if points.clients() > 12 {
        return Err(Want);
    }
    let mut vouchers = Vouchers::none();
    let first = say_vouchers(alloc, &mut vouchers, points)?;
    let again = say_vouchers(alloc, &mut vouchers, points)?;
    Ok((first, again))
}

/// The words for a screen that was given two notices.
fn noticed_twice(alloc: Global) -> Result<(Vec<Body>, Vec<Body>), Want> {
    let mut points = Master::make(alloc, &bare_plant(alloc), 1)?;
    acknowledge(&mut points, 1)?;
    acknowledge(&mut points, 2)?;
    vouch_twice(alloc, &points)
}

#[test]
fn each_order_is_vouched_for_once(rt: HostRuntime) -> Result<(), Fail> {
    let (first, again) = noticed_twice(rt.alloc())?;
    let names = named(rt.alloc(), &first)?;
    assert_eq!(rt; names.as_slice(), [('v', 1), ('v', 2)].as_slice());
    assert_eq!(rt; again.len(), 0);
    Ok(())
}
