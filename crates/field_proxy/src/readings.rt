//! The readings that a poll has to say.
ghost use Rattle.std.specs.Prelude.{◌≡◌, ◌++◌, ◌<◌, ◌≤◌, ◌^◌, ◌+◌, ◌∷◌, [], length, IfOk, OnOk, OnErr, ◌⊎◌};
ghost use Rattle.plain_lists.specs.Lists.{Begins};
ghost use Rattle.field_proxy.specs.Exchanges.{line_after};
ghost use Rattle.field_proxy.specs.Readings.{poll_requests, given, reading_of, readings, last_in, was_said, told_one, told, numbered};

use crate::exchange::read_point;
use crate::line::Line;
use field_device::Device;
use message_types::{Op, Update};
use plain_lists::Want;
use point_table::Point;
use std::alloc::Global;

/// Adds the reading of a point, where it is to be said.
fn add_reading(
    alloc: Global,
    device: &mut Device,
    line: &mut Line,
    client: u32,
    number: u32,
    point: &Point,
    last: Option<i64>,
    ops: &mut Vec<Op, Global>,
) -> Result<(), Want>
    ensures ops { OnOk result (ops.new.items ≡ ops.old.items ++ reading_of client number point.now (given device.old point.now) last) }
    ensures line { OnOk result (line.new ≡ line_after line.old device.old (poll_requests client (point.now ∷ []))) }
    ensures begun { OnErr result ((line.new.passed ≡ line.old.passed)
        ⊎ (line.new ≡ line_after line.old device.old (poll_requests client (point.now ∷ [])))) }
    ensures same { device.new ≡ device.old }
{
    if point.proxy != client {
        return Ok(());
    }
    let Some(value) = read_point(alloc, device, line, point)? else {
        return Ok(());
    };
    if was_said(last, value) {
        return Ok(());
    }
    ops.push(Op::Reading {
        point: number,
        value,
    })?;
    Ok(())
}

fn was_said(last: Option<i64>, value: i64) -> bool
    ensures { result ≡ was_said last value }
{
    match last {
        Some(said) => said == value,
        None => false,
    }
}

/// The readings of a client's points that are to be said, in the order of their numbers.
pub fn due_readings(
    alloc: Global,
    device: &mut Device,
    line: &mut Line,
    client: u32,
    points: &[Point],
    lasts: &[Option<i64>],
) -> Result<Vec<Op, Global>, Want>
    requires few { length points.now ≤ 1024 }
    requires lasts { length lasts.now ≡ length points.now }
    ensures ops { IfOk result (λ ops. ops.items ≡ readings device.old client points.now (last_in lasts.now)) }
    ensures line { OnOk result (line.new ≡ line_after line.old device.old (poll_requests client points.now)) }
    ensures begun { OnErr result (Begins line.new.passed (line_after line.old device.old (poll_requests client points.now)).passed) }
    ensures same { device.new ≡ device.old }
{
    let mut ops = Vec::new(alloc);
    for (number, point) in points.iter().enumerate() {
        add_reading(
            alloc,
            device,
            line,
            client,
            number as u32,
            point,
            lasts[number],
            &mut ops,
        )?;
    }
    Ok(ops)
}

/// The operations as a client's updates, the first with the number `first`.
pub fn as_updates(
    alloc: Global,
    client: u32,
    first: u64,
    ops: &[Op],
) -> Result<Vec<Update, Global>, Want>
    requires { first + length ops.now < 2 ^ 64 }
    ensures { IfOk result (λ updates. updates.items ≡ numbered client first ops.now) }
{
    let mut updates = Vec::with_capacity(alloc, ops.len())?;
    for (place, op) in ops.iter().enumerate() {
        updates.push(Update {
            client,
            t: first + place as u64,
            op: *op,
        })?;
    }
    Ok(updates)
}

fn tell_one(lasts: &mut [Option<i64>], op: &Op)
    ensures { lasts.new ≡ told_one lasts.old op.now }
{
    if let Op::Reading { point, value } = *op {
        let place = point as usize;
        if place < lasts.len() {
            lasts[place] = Some(value);
        }
    }
}

/// Keeps what was said of each point.
pub fn tell(lasts: &mut [Option<i64>], ops: &[Op])
    ensures { lasts.new ≡ told lasts.old ops.now }
{
    for op in ops {
        tell_one(lasts, op);
    }
}
