ghost use Rattle.std.specs.Prelude.{◌≡◌, ◌≤◌, ◌<◌, ◌+◌, ◌++◌, ◌^◌, List, [], length, OnOk, OnErr, IfOk, IfSome, Some, slice_get, position, replicate, true};
ghost use Rattle.master_points.specs.Effects.{to_each, change_orders, change_notice, denies, verdict_on, set_orders, reply, from_proxy, from_screen, effect, settled, is_own_within, notice, IsPossible};
ghost use Rattle.master_points.specs.Lists.{given};
ghost use Rattle.master_points.specs.Orders.{Held, fresh, applied, AreOwned, IsPlant};

use crate::effect::{Addressed, Effect, Step, Verdict};
use crate::lists::{OrderList, give};
use crate::plant::Plant;
use alarm_rules::{Alarms, Change};
use interlocks::Interlock;
use message_types::{Notice, NoticeKind, Op, Order, Update};
use plain_lists::{Copied, Items, Want};
use point_table::Points;
use std::alloc::Global;
use std::marker::Model;

/// The plant as one master keeps it, with the orders that it has given to each client.
pub struct Master {
    alloc: Global,
    devices: u32,
    screens: u32,
    interlocks: Items<Interlock>,
    points: Points,
    alarms: Alarms,
    lists: Vec<OrderList, Global>,
}

// Taken apart here once, so that no crate above proves it again.
impl Drop for Master {
    fn drop(self) {
        let Master {
            alloc: _,
            devices: _,
            screens: _,
            interlocks: _,
            points: _,
            alarms: _,
            lists: _,
        } = self;
    }
}

impl Model for Master {
    ghost use Rattle.std.specs.Prelude.{◌≡◌, ◌≤◌, ◌+◌, length};
    ghost use Rattle.std.specs.Coded.{codes};
    ghost use Rattle.interlocks.specs.Code.{formula_code};
    ghost use Rattle.master_points.specs.Orders.{Held, AreOwned};
    ghost use Rattle.master_points.specs.declared.limits.TheConstants.{MOST_INTERLOCKS, MOST_PROXIES, MOST_SCREENS};

    ghost Value = { Held };

    ghost coded = { Prim.hlevel (codes, formula_code) };

    ghost view = { λ master. record {
      site = record { devices = master.devices; screens = master.screens; interlocks = master.interlocks };
      state = record { table = master.points; board = master.alarms };
      lists = master.lists.items;
    } };

    ghost invariant = { λ master. (length master.lists.items ≡ master.devices + master.screens) × AreOwned master.devices master.points.points × (length master.interlocks ≤ MOST_INTERLOCKS) × (master.devices + master.screens ≤ MOST_PROXIES + MOST_SCREENS) };
}

impl Master {
    ghost use Rattle.master_points.specs.declared.effect.Step.TheVariants.{Keep};

    /// A master before any update.
    pub fn make(alloc: Global, plant: &Plant, screens: u32) -> Result<Master, Want>
        requires { IsPlant plant.now screens }
        ensures { IfOk result (λ master. master ≡ fresh plant.now screens) }
    {
        let devices = plant.devices.len() as u32;
        let lists = empty_lists(alloc, devices + screens)?;
        Ok(Master {
            alloc,
            devices,
            screens,
            interlocks: plant.interlocks.copy()?,
            points: Points::make(alloc, plant.points.as_slice())?,
            alarms: Alarms::make(alloc, plant.alarms.as_slice())?,
            lists,
        })
    }

    /// Does what an executed update says. Without memory for its orders nothing changes.
    pub fn apply(&mut self, update: &Update) -> Result<(), Want>
        requires { update.now.client < self.old.site.devices + self.old.site.screens }
        ensures ok { OnOk result (self.new ≡ applied self.old update.now) }
        ensures err { OnErr result (self.new ≡ self.old) }
    {
        let effect = self.effect(update)?;
        give(&mut self.lists, effect.orders.as_slice())?;
        self.settle(effect.step);
        Ok(())
    }

    /// How many clients there are: the proxies and the screens.
    pub fn clients(&self) -> u32
        ensures { result ≡ self.now.site.devices + self.now.site.screens }
    {
        self.devices + self.screens
    }

    /// The orders of a client so far, numbered from 1.
    pub fn orders(&self, client: u32) -> &[Order]
        requires { client < self.now.site.devices + self.now.site.screens }
        ensures { slice_get self.now.lists client ≡ Some result.now }
    {
        self.lists[client as usize].as_slice()
    }

    /// What an update does.
    fn effect(&self, update: &Update) -> Result<Effect, Want>
        ensures { IfOk result (λ done. done ≡ effect self.now.site self.now.state update.now) }
    {
        if update.client < self.devices {
            self.proxy_effect(update.client, update.op)
        } else {
            self.screen_effect(update.client, update.t, update.op)
        }
    }

    /// What an update of a proxy does.
    fn proxy_effect(&self, client: u32, op: Op) -> Result<Effect, Want>
        ensures { IfOk result (λ done. done ≡ from_proxy self.now.site self.now.state client op) }
    {
        match op {
            Op::Reading { point, value } if self.is_own_within(client, point, value) => {
                let told = self.alarms.changes(point, value)?;
                Ok(Effect {
                    orders: self.change_orders(told.as_slice())?,
                    step: Step::Read { point, value },
                })
            }
            _ => Ok(Effect {
                orders: Items::new(self.alloc),
                step: Step::Keep,
            }),
        }
    }

    fn is_own_within(&self, client: u32, point: u32, value: i64) -> bool
        ensures { result ≡ is_own_within client value (slice_get self.now.state.table.points point) }
    {
        match self.points.point(point) {
            Some(point) => point.proxy == client && point.is_within(value),
            None => false,
        }
    }

    /// The notices of changed alarms, one for each screen.
    fn change_orders(&self, told: &[Change]) -> Result<Items<Addressed>, Want>
        ensures { IfOk result (λ orders. orders ≡ change_orders self.now.site told.now) }
    {
        let mut orders = Items::new(self.alloc);
        for change in told {
            to_each(
                &mut orders,
                self.devices,
                self.screens,
                change_notice(*change),
            )?;
        }
        Ok(orders)
    }

    /// What an update of a screen does.
    fn screen_effect(&self, client: u32, t: u64, op: Op) -> Result<Effect, Want>
        ensures { IfOk result (λ done. done ≡ from_screen self.now.site self.now.state client t op) }
    {
        match op {
            Op::Reading { point: _, value: _ } => {
                self.replied(client, NoticeKind::WrongPart, t, 0, Step::Keep)
            }
            Op::Ack { alarm } => {
                if self.alarms.raised(alarm) {
                    self.replied(client, NoticeKind::Done, t, 0, Step::Acknowledge { alarm })
                } else {
                    self.replied(client, NoticeKind::NoAlarm, t, alarm, Step::Keep)
                }
            }
            Op::Set { point, value } => self.set_effect(
                client,
                t,
                point,
                self.verdict(point, value),
            ),
        }
    }

    /// What a command to set a point does, by what becomes of it.
    fn set_effect(&self, client: u32, t: u64, point: u32, verdict: Verdict) -> Result<Effect, Want>
        ensures { IfOk result (λ done. done ≡ record { orders = set_orders client t point verdict; step = Keep }) }
    {
        match verdict {
            Verdict::NoPoint => self.replied(client, NoticeKind::NoPoint, t, point, Step::Keep),
            Verdict::NotWritable => {
                self.replied(client, NoticeKind::NotWritable, t, point, Step::Keep)
            }
            Verdict::OutOfRange => {
                self.replied(client, NoticeKind::OutOfRange, t, point, Step::Keep)
            }
            Verdict::Denied { interlock } => {
                self.replied(client, NoticeKind::Denied, t, interlock, Step::Keep)
            }
            Verdict::Write { proxy, raw } => {
                let mut orders = Items::new(self.alloc);
                orders.push(Addressed {
                    client: proxy,
                    order: Order::Write { point, raw },
                })?;
                orders.push(addressed_notice(client, NoticeKind::Done, t, 0))?;
                Ok(Effect {
                    orders,
                    step: Step::Keep,
                })
            }
        }
    }

    /// One notice for a screen, and a step.
    fn replied(
        &self,
        client: u32,
        what: NoticeKind,
        t: u64,
        number: u32,
        step: Step,
    ) -> Result<Effect, Want>
        ensures { IfOk result (λ done. done ≡ record { orders = reply client what t number; step = step }) }
    {
        let mut orders = Items::new(self.alloc);
        orders.push(addressed_notice(client, what, t, number))?;
        Ok(Effect { orders, step })
    }

    /// What becomes of a command to set a point.
    fn verdict(&self, number: u32, value: i64) -> Verdict
        ensures { result ≡ verdict_on self.now.site self.now.state number value (slice_get self.now.state.table.points number) }
    {
        let Some(point) = self.points.point(number) else {
            return Verdict::NoPoint;
        };
        if !point.area.is_writable() {
            return Verdict::NotWritable;
        }
        match point.raw_of(value) {
            None => Verdict::OutOfRange,
            Some(raw) => match self.denied(number, value) {
                Some(interlock) => Verdict::Denied {
                    interlock: interlock as u32,
                },
                None => Verdict::Write {
                    proxy: point.proxy,
                    raw,
                },
            },
        }
    }

    /// The place of the first interlock that denies setting a point to a value.
    fn denied(&self, number: u32, value: i64) -> Option<usize>
        ensures place { result ≡ position (denies self.now.state number value) self.now.site.interlocks }
        ensures within { IfSome result (λ place. place < 2 ^ 32) }
    {
        let interlocks = self.interlocks.as_slice();
        for (place, interlock) in interlocks.iter().enumerate() {
            if self.denies(interlock, number, value) {
                return Some(place);
            }
        }
        None
    }

    fn denies(&self, interlock: &Interlock, number: u32, value: i64) -> bool
        ensures { result ≡ denies self.now.state number value interlock.now }
    {
        let is_meant = match interlock.value {
            None => true,
            Some(denied) => denied == value,
        };
        interlock.point == number && is_meant && interlock.deny.holds(&self.points, &self.alarms)
    }

    /// Changes the state by a step.
    fn settle(&mut self, step: Step)
        requires { IsPossible self.old.state step }
        ensures { self.new ≡ record self.old { state = settled step self.old.state } }
    {
        match step {
            Step::Keep => {}
            Step::Read { point, value } => {
                let _ = self.points.set(point, value);
                self.alarms.settle(point, value);
            }
            Step::Acknowledge { alarm } => {
                let _ = self.alarms.acknowledge(alarm);
            }
        }
    }
}

fn change_notice(change: Change) -> Order
    ensures { result ≡ change_notice change }
{
    match change {
        Change::Raised { alarm } => notice(NoticeKind::Raised, 0, alarm),
        Change::Cleared { alarm } => notice(NoticeKind::Cleared, 0, alarm),
    }
}

fn notice(what: NoticeKind, t: u64, number: u32) -> Order
    ensures { result ≡ notice what t number }
{
    Order::Notice(Notice { what, t, number })
}

fn addressed_notice(client: u32, what: NoticeKind, t: u64, number: u32) -> Addressed
    ensures { result ≡ record { client = client; order = notice what t number } }
{
    Addressed {
        client,
        order: notice(what, t, number),
    }
}

/// Adds one order for each of `count` clients from `first` on.
fn to_each(orders: &mut Items<Addressed>, first: u32, count: u32, order: Order) -> Result<(), Want>
    requires { first + count < 2 ^ 32 }
    ensures { OnOk result (orders.new ≡ orders.old ++ to_each first count order) }
{
    for place in 0..count {
        orders.push(Addressed {
            client: first + place,
            order,
        })?;
    }
    Ok(())
}

/// As many empty lists.
fn empty_lists(alloc: Global, count: u32) -> Result<Vec<OrderList>, Want>
    ensures { IfOk result (λ lists. lists.items ≡ replicate count []) }
{
    let mut lists = Vec::with_capacity(alloc, count as usize)?;
    for _ in 0..count {
        lists.push(OrderList::new(alloc))?;
    }
    Ok(lists)
}
