//! Orders carried out in turn, all or none.
ghost use Rattle.std.specs.Prelude.{◌≡◌, ◌++◌, ◌∷◌, [], ◌+◌, ◌<◌, ◌^◌, take, length, OnOk, OnErr, ◌⊎◌, option_copied, slice_get};
ghost use Rattle.plain_lists.specs.Lists.{Begins};
ghost use Rattle.vouched_orders.specs.Tally.{TakesVote, TalliesAlike};
ghost use Rattle.field_proxy.specs.Undoing.{undone};
ghost use Rattle.field_proxy.specs.Exchanges.{line_after};
ghost use Rattle.field_proxy.specs.Writes.{requests_of, order_requests, written_area, after_order, kept_of, after_orders, kept_orders};

use crate::exchange::write_point;
use crate::line::Line;
use crate::undo::{Held, undo};
use crate::writes::Write;
use field_device::Device;
use message_types::Order;
use plain_lists::Want;
use point_table::{Area, Point};
use std::alloc::Global;
use vouched_orders::{Vote, Vouched};

/// The area that a write goes to: functions 5 and 6 write coils and holding registers.
fn written_area(area: Area) -> Area
    ensures { result ≡ written_area area }
{
    match area {
        Area::Coil => Area::Coil,
        _ => Area::Holding,
    }
}

fn point_at(points: &[Point], number: u32) -> Option<&Point>
    ensures { option_copied result ≡ slice_get points.now number }
{
    points.get(number as usize)
}

/// Carries out one order. What the log undoes stays the same, also after want of memory.
fn carry_one(
    alloc: Global,
    device: &mut Device,
    line: &mut Line,
    points: &[Point],
    number: u64,
    order: &Order,
    writes: &mut Vec<Write, Global>,
    log: &mut Vec<Held, Global>,
) -> Result<(), Want>
    ensures device { OnOk result (device.new ≡ after_order points.now device.old order.now) }
    ensures writes { OnOk result (writes.new.items ≡ writes.old.items ++ kept_of points.now device.old number order.now) }
    ensures line { OnOk result (line.new ≡ line_after line.old device.old (requests_of points.now order.now)) }
    ensures begun { OnErr result ((line.new.passed ≡ line.old.passed)
        ⊎ (line.new ≡ line_after line.old device.old (requests_of points.now order.now))) }
    ensures front { OnErr result (writes.new.items ≡ writes.old.items) }
    ensures undone { undone log.new.items device.new ≡ undone log.old.items device.old }
{
    let Order::Write { point, raw } = *order else {
        return Ok(());
    };
    let Some(target) = point_at(points, point) else {
        return Ok(());
    };
    let area = written_area(target.area);
    log.push(Held {
        area,
        place: target.place,
        value: device.value(area, target.place),
    })?;
    let exception = write_point(alloc, device, line, target, raw)?;
    writes.push(Write {
        number,
        point,
        raw,
        exception,
    })?;
    Ok(())
}

/// Carries out orders in turn, the first under the number `first`. What the log undoes stays the same, also after want of
/// memory.
fn carry_out(
    alloc: Global,
    device: &mut Device,
    line: &mut Line,
    points: &[Point],
    orders: &[Order],
    writes: &mut Vec<Write, Global>,
    log: &mut Vec<Held, Global>,
) -> Result<(), Want>
    ensures device { OnOk result (device.new ≡ after_orders points.now device.old orders.now) }
    ensures writes { OnOk result (writes.new.items ≡ writes.old.items ++ kept_orders points.now device.old (length writes.old.items + 1) orders.now) }
    ensures line { OnOk result (line.new ≡ line_after line.old device.old (order_requests points.now orders.now)) }
    ensures begun { OnErr result (Begins line.new.passed (line_after line.old device.old (order_requests points.now orders.now)).passed) }
    ensures front { take (length writes.old.items) writes.new.items ≡ writes.old.items }
    ensures undone { undone log.new.items device.new ≡ undone log.old.items device.old }
{
    let first = writes.len() as u64 + 1;
    for (place, order) in orders.iter().enumerate() {
        let number = first + place as u64;
        carry_one(alloc, device, line, points, number, order, writes, log)?;
    }
    Ok(())
}

/// Carries out the orders that a vote makes done, and takes the vote. After want of memory nothing has changed but the line: on it
/// passed what passes for a beginning of the orders.
pub fn carry_out_vote(
    alloc: Global,
    device: &mut Device,
    line: &mut Line,
    points: &[Point],
    orders: &[Order],
    writes: &mut Vec<Write, Global>,
    vouched: &mut Vouched,
    vote: Vote,
) -> Result<(), Want>
    ensures device { OnOk result (device.new ≡ after_orders points.now device.old orders.now) }
    ensures writes { OnOk result (writes.new.items ≡ writes.old.items ++ kept_orders points.now device.old (length writes.old.items + 1) orders.now) }
    ensures line { OnOk result (line.new ≡ line_after line.old device.old (order_requests points.now orders.now)) }
    ensures begun { OnErr result (Begins line.new.passed (line_after line.old device.old (order_requests points.now orders.now)).passed) }
    ensures vouched { OnOk result (TakesVote vouched.old vote vouched.new) }
    ensures device_stays { OnErr result (device.new ≡ device.old) }
    ensures writes_stay { OnErr result (writes.new.items ≡ writes.old.items) }
    ensures vouched_stays { OnErr result (TalliesAlike vouched.old vouched.new) }
{
    let before = writes.len();
    let mut log = Vec::new(alloc);
    if let Err(want) = carry_out(alloc, device, line, points, orders, writes, &mut log) {
        writes.truncate(before);
        undo(device, log);
        return Err(want);
    }
    if let Err(want) = vouched.take(vote) {
        writes.truncate(before);
        undo(device, log);
        return Err(want);
    }
    Ok(())
}
