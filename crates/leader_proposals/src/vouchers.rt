ghost use Rattle.std.specs.Prelude.{◌≡◌, ◌≤◌, ◌<◌, ◌&&◌, ◌++◌, ℕ, List, [], OnOk, OnErr, length, nat_le, slice_index, slice_set};
ghost use Rattle.std.specs.List.{list_any};
ghost use Rattle.message_types.specs.declared.body.Body.{Body as Word};
ghost use Rattle.protocol_rules.specs.Master.{vouchers_said, vouchers_from};
ghost use Rattle.leader_proposals.specs.Saying.{AreVouchersOf};

use message_types::{Body, Order, Voucher};
use plain_lists::Want;
use quorum_sets::{CLIENT_PLACES, MOST_CLIENTS};
use std::alloc::Global;

/// How many vouchers a master said for each client, from its first order on. A copy of it brings back what
/// an event that was given up half way has counted.
#[derive(Clone, Copy, PartialEq, Eq)]
pub struct Vouchers {
    pub counts: [u64; CLIENT_PLACES],
}

impl Vouchers {
    /// Where no voucher was said.
    pub fn none() -> Vouchers
        ensures counts { (c : ℕ) → slice_index result.counts c ≡ 0 }
        ensures nothing { AreVouchersOf result.counts [] }
    {
        Vouchers {
            counts: [0; CLIENT_PLACES],
        }
    }

    /// Adds the vouchers due for a client that all these orders are for, the ones vouched for included. They count as
    /// said from then on.
    pub fn due_for(
        &mut self,
        bodies: &mut Vec<Body, Global>,
        client: u32,
        orders: &[Order],
    ) -> Result<(), Want>
        requires client { client < MOST_CLIENTS }
        requires orders { slice_index self.old.counts client ≤ length orders.now }
        ensures due { OnOk result ((said : List Word) → AreVouchersOf self.old.counts said → bodies.new.items ≡ bodies.old.items ++ vouchers_from said client 1 orders.now) }
        ensures said { OnOk result ((said : List Word) → AreVouchersOf self.old.counts said → AreVouchersOf self.new.counts (said ++ vouchers_from said client 1 orders.now)) }
        ensures counts { OnOk result (self.new.counts ≡ slice_set self.old.counts client (length orders.now)) }
        ensures refused { OnErr result (self.new ≡ self.old) }
    {
        let place = client as usize;
        push_vouchers(bodies, client, self.counts[place], orders)?;
        self.counts[place] = orders.len() as u64;
        Ok(())
    }
}

/// Adds a voucher for each order after the first `count`.
fn push_vouchers(
    bodies: &mut Vec<Body, Global>,
    client: u32,
    count: u64,
    orders: &[Order],
) -> Result<(), Want>
    requires { count ≤ length orders.now }
    ensures { OnOk result ((said : List Word) → ((x : ℕ) → list_any (vouchers_said client x) said ≡ (nat_le 1 x && nat_le x count))
        → bodies.new.items ≡ bodies.old.items ++ vouchers_from said client 1 orders.now) }
{
    for place in count as usize..orders.len() {
        let voucher = Voucher {
            client,
            number: place as u64 + 1,
            order: orders[place],
        };
        bodies.push(Body::Voucher(voucher))?;
    }
    Ok(())
}
