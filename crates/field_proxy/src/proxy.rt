ghost use Rattle.std.specs.Prelude.{◌≡◌, ◌↔◌, ◌+◌, ◌++◌, ◌∷◌, ◌<◌, ◌≤◌, ◌^◌, [], length, map, OnOk, OnErr, IfOk, IsErr, IsSomeAnd, slice_get, replicate, Some, None, nat_eq, ◌&&◌};
ghost use Rattle.field_device.specs.Places.{size_of};
ghost use Rattle.field_proxy.specs.Writes.{can_write, order_of};
ghost use Rattle.field_proxy.specs.Front.{Front, IsFrontOf, fresh, after_change, poll_says, poll_passes, after_poll, vote_passes, after_vote};
ghost use Rattle.plain_lists.specs.Lists.{Begins};

use crate::line::{Exchange, Line};
use crate::orders::carry_out_vote;
use crate::readings::{as_updates, due_readings, tell};
use crate::writes::Write;
use field_device::{Device, NoPlace};
use master_points::Plant;
use message_types::{Order, Update, Voucher};
use plain_lists::{Copied, Items, Want};
use point_table::{Area, DeviceSizes, Point};
use quorum_sets::Sizes;
use std::alloc::Global;
use std::marker::Model;
use vouched_orders::{Vote, Vouched};

/// A proxy and the field device behind it.
pub struct Proxy {
    alloc: Global,
    client: u32,
    sizes: Sizes,
    points: Items<Point>,
    device: Device,
    line: Line,
    lasts: Vec<Option<i64>, Global>,
    updates: u64,
    vouched: Vouched,
    writes: Vec<Write, Global>,
    broken_off: Items<Exchange>,
}

// Taken apart here once, so that no crate above proves it again.
impl Drop for Proxy {
    fn drop(self) {
        let Proxy {
            alloc: _,
            client: _,
            sizes: _,
            points: _,
            device: _,
            line: _,
            lasts: _,
            updates: _,
            vouched: _,
            writes: _,
            broken_off: _,
        } = self;
    }
}

impl Model for Proxy {
    ghost use Rattle.std.specs.Prelude.{◌≡◌, ◌≤◌, length};
    ghost use Rattle.field_proxy.specs.Front.{ProxyState};

    ghost Value = { ProxyState };

    ghost view = { λ proxy. record {
      client = proxy.client;
      n = proxy.sizes.n;
      f = proxy.sizes.f;
      points = proxy.points;
      places = proxy.device;
      line = proxy.line;
      lasts = proxy.lasts.items;
      updates = proxy.updates;
      tally = proxy.vouched;
      writes = proxy.writes.items;
      broken_off = proxy.broken_off;
    } };

    ghost invariant = { λ proxy. (length proxy.points ≤ 1024) × (length proxy.lasts.items ≡ length proxy.points) };
}

impl Proxy {
    ghost use Rattle.vouched_orders.specs.Vouching.{done};

    /// A proxy before its device, which begins with zeros. `client` is its number among the clients, and that of its
    /// device in the plant.
    pub fn make(alloc: Global, client: u32, sizes: Sizes, plant: &Plant) -> Result<Proxy, Want>
        requires few { length plant.now.points ≤ 1024 }
        requires there { client < length plant.now.devices }
        ensures n { IfOk result (λ proxy. proxy.n ≡ sizes.n) }
        ensures made { IfOk result (λ proxy. IsSomeAnd (slice_get plant.now.devices client) (λ device.
            IsFrontOf proxy (fresh client sizes.n sizes.f plant.now.points device))) }
        ensures none { IfOk result (λ proxy. proxy.broken_off ≡ []) }
    {
        let sizes_of_device = device_of(plant, client);
        let points = plant.points.copy()?;
        let count = points.len();
        Ok(Proxy {
            alloc,
            client,
            sizes,
            points,
            device: Device::make(alloc, &sizes_of_device)?,
            line: Line::new(alloc, 0),
            lasts: none_said(alloc, count)?,
            updates: 0,
            vouched: Vouched::new(alloc, &sizes),
            writes: Vec::new(alloc),
            broken_off: Items::new(alloc),
        })
    }

    /// A change in the field.
    pub fn change(&mut self, area: Area, place: u16, value: u16) -> Result<(), NoPlace>
        ensures ok { OnOk result ((s : Front) → IsFrontOf self.old s → IsFrontOf self.new (after_change s area place value)) }
        ensures err { OnErr result (self.new ≡ self.old) }
        ensures no_place { IsErr result ↔ (size_of self.old.places area ≤ place) }
        ensures broken_off { self.new.broken_off ≡ self.old.broken_off }
    {
        self.device.change(area, place, value)
    }

    /// Reads the proxy's points from the device, and gives what is to be said of them as the client's next updates. Of these
    /// it gives the first `room`, and counts no other as said. After want of memory nothing has changed, and `broken_off` has what
    /// passed.
    pub fn poll(&mut self, room: u64) -> Result<Vec<Update, Global>, Want>
        requires { self.old.updates < 2 ^ 62 }
        ensures says { IfOk result (λ updates. (s : Front) → IsFrontOf self.old s → updates.items ≡ poll_says s room) }
        ensures after { OnOk result ((s : Front) → IsFrontOf self.old s → IsFrontOf self.new (after_poll s room)) }
        ensures room { IfOk result (λ updates. length updates.items ≤ room) }
        ensures counted { IfOk result (λ updates. self.new.updates ≡ self.old.updates + length updates.items) }
        ensures err { OnErr result (self.new ≡ record self.old { broken_off = self.new.broken_off }) }
        ensures begun { OnErr result ((s : Front) → IsFrontOf self.old s → Begins self.new.broken_off (poll_passes s)) }
        ensures whole { OnOk result (self.new.broken_off ≡ []) }
    {
        let mut line = Line::new(self.alloc, self.line.last);
        let mut ops = match due_readings(
            self.alloc,
            &mut self.device,
            &mut line,
            self.client,
            self.points.as_slice(),
            &self.lasts,
        ) {
            Ok(ops) => ops,
            Err(want) => {
                self.broken_off = line.into_passed();
                return Err(want);
            }
        };
        ops.truncate(room as usize);
        let updates = match as_updates(self.alloc, self.client, self.updates + 1, &ops) {
            Ok(updates) => updates,
            Err(want) => {
                self.broken_off = line.into_passed();
                return Err(want);
            }
        };
        self.broken_off = Items::new(self.alloc);
        tell(&mut self.lasts, &ops);
        self.updates += ops.len() as u64;
        self.line.keep(line);
        Ok(updates)
    }

    /// How many updates polls gave so far.
    pub fn updates(&self) -> u64
        ensures { result ≡ self.now.updates }
    {
        self.updates
    }

    /// Takes a voucher. Where it makes orders done, the device is written. One for another client, or with an order that the
    /// proxy can't carry out, changes nothing. One that no master signed supports no order. After want of memory nothing has
    /// changed, since the device is put back to what it held, and `broken_off` has what passed.
    pub fn take_voucher(&mut self, signer: u32, voucher: &Voucher) -> Result<(), Want>
        ensures ok { OnOk result ((s : Front) → IsFrontOf self.old s → IsFrontOf self.new (after_vote s (record { signer = signer; voucher = voucher.now }))) }
        ensures err { OnErr result ((s : Front) → IsFrontOf self.old s → IsFrontOf self.new s) }
        ensures begun { OnErr result ((s : Front) → IsFrontOf self.old s
            → Begins self.new.broken_off (vote_passes s (record { signer = signer; voucher = voucher.now }))) }
        ensures whole { OnOk result (self.new.broken_off ≡ []) }
    {
        let is_counted = self.counts(voucher);
        self.broken_off = Items::new(self.alloc);
        if !is_counted {
            return Ok(());
        }
        let vote = Vote {
            signer,
            voucher: *voucher,
        };
        let orders = self.vouched.ready(&vote)?;
        let mut line = Line::new(self.alloc, self.line.last);
        match carry_out_vote(
            self.alloc,
            &mut self.device,
            &mut line,
            self.points.as_slice(),
            &orders,
            &mut self.writes,
            &mut self.vouched,
            vote,
        ) {
            Ok(()) => {
                self.line.keep(line);
                Ok(())
            }
            Err(want) => {
                self.broken_off = line.into_passed();
                Err(want)
            }
        }
    }

    /// The writes made, in the order of their numbers, from 1. They are the orders done.
    pub fn writes(&self) -> &[Write]
        ensures writes { result.now ≡ self.now.writes }
        ensures orders { (s : Front) → IsFrontOf self.now s → map order_of result.now ≡ done s.n s.f s.votes }
    {
        self.writes.as_slice()
    }

    /// The bytes that passed on the line to the device, request by request, at the last poll or voucher for which the proxy
    /// asked anything of it and which was seen through.
    pub fn exchanges(&self) -> &[Exchange]
        ensures { result.now ≡ self.now.line.passed }
    {
        self.line.passed.as_slice()
    }

    /// The same of the last poll or voucher, where memory was wanted before its end: a beginning of what passes for all of it,
    /// without the exchange for which there was no memory. Empty where the last one was seen through.
    pub fn broken_off(&self) -> &[Exchange]
        ensures { result.now ≡ self.now.broken_off }
    {
        self.broken_off.as_slice()
    }

    /// Whether a voucher is for this proxy, and with an order that it can carry out.
    fn counts(&self, voucher: &Voucher) -> bool
        ensures { result ≡ (nat_eq voucher.now.client self.now.client && can_write self.now.points self.now.client voucher.now.order) }
    {
        voucher.client == self.client && self.can_write(&voucher.order)
    }

    /// Whether the proxy can carry an order out: it is a write to one of its own points that can be written.
    fn can_write(&self, order: &Order) -> bool
        ensures { result ≡ can_write self.now.points self.now.client order.now }
    {
        match order {
            Order::Notice(_) => false,
            Order::Write { point, .. } => match self.points.get(*point as usize) {
                Some(target) => target.proxy == self.client && target.area.is_writable(),
                None => false,
            },
        }
    }
}

/// The sizes of a client's device.
fn device_of(plant: &Plant, client: u32) -> DeviceSizes
    requires { client < length plant.now.devices }
    ensures { slice_get plant.now.devices client ≡ Some result }
{
    plant.devices.as_slice()[client as usize]
}

/// Nothing said yet of so many points.
fn none_said(alloc: Global, count: usize) -> Result<Vec<Option<i64>, Global>, Want>
    ensures { IfOk result (λ lasts. lasts.items ≡ replicate count None) }
{
    let mut lasts = Vec::with_capacity(alloc, count)?;
    for _made in 0..count {
        lasts.push(None)?;
    }
    Ok(lasts)
}
