ghost use Rattle.std.specs.Prelude.{◌≡◌, ◌≤◌, ◌<◌, ◌++◌, ◌∷◌, [], List, OnOk, OnErr, length};
ghost use Rattle.master_points.specs.Lists.{AreAddressed, given};

use crate::effect::Addressed;
use message_types::Order;
use plain_lists::Want;
use std::alloc::Global;
use std::marker::Model;

/// The orders of one client, in order.
#[derive(Drop)]
pub struct OrderList {
    orders: Vec<Order, Global>,
}

impl Model for OrderList {
    ghost use Rattle.std.specs.Prelude.{List};
    ghost use Rattle.message_types.specs.declared.vouchers.Order.{Order};

    ghost Value = { List Order };

    ghost view = { λ list. list.orders.items };
}

impl OrderList {
    pub fn new(alloc: Global) -> Self
        ensures { result ≡ [] }
    {
        OrderList {
            orders: Vec::new(alloc),
        }
    }

    /// Adds an order at the end. Without memory for it the list stays as it was.
    fn push(&mut self, order: Order) -> Result<(), Want>
        ensures ok { OnOk result (self.new ≡ self.old ++ order ∷ []) }
        ensures err { OnErr result (self.new ≡ self.old) }
    {
        self.orders.push(order)?;
        Ok(())
    }

    /// Takes the last order away again.
    fn cut_last(&mut self)
        ensures { (orders : List Order) (last : Order) → self.old ≡ orders ++ last ∷ [] → self.new ≡ orders }
    {
        let _ = self.orders.pop();
    }

    pub fn as_slice(&self) -> &[Order]
        ensures { result.now ≡ self.now }
    {
        self.orders.as_slice()
    }
}

/// Gives each order to its client's list. Without memory for all of them no list changes.
pub fn give(lists: &mut [OrderList], orders: &[Addressed]) -> Result<(), Want>
    requires { AreAddressed (length lists.old) orders.now }
    ensures ok { OnOk result (lists.new ≡ given orders.now lists.old) }
    ensures err { OnErr result (lists.new ≡ lists.old) }
{
    let Some((first, rest)) = orders.split_first() else {
        return Ok(());
    };
    let client = first.client as usize;
    lists[client].push(first.order)?;
    match give(lists, rest) {
        Ok(()) => Ok(()),
        Err(want) => {
            lists[client].cut_last();
            Err(want)
        }
    }
}
