//! What holds of all orders, and beyond a master's calls. The functions do nothing; their contracts are the laws.

ghost use Rattle.std.specs.Prelude.{◌≡◌};
ghost use Rattle.master_points.specs.Orders.{OnlyAppends, HoldsOrders};
ghost use Rattle.master_points.specs.declared.limits.TheConstants.{MOST_PROXIES, MOST_SCREENS, MOST_INTERLOCKS};

use crate::master::Master;

/// A longer list of executed updates only appends orders.
pub fn only_appends()
    ensures { OnlyAppends }
{}

/// What a master holds for a client, made anew and given executed updates one by one, are the orders of
/// those updates for that client.
pub fn holds_orders()
    ensures { HoldsOrders }
{}

fn moves<T: Send>(_value: &T) {}

fn lends<T: Sync>(_value: &T) {}

/// A master's points, alarms and orders may be handed to another thread, and lent to several.
pub fn crosses_threads(master: &Master) {
    moves(master);
    lends(master);
}

/// How large a plant may be, in numbers: the code and the definitions both cite the constants.
pub fn limits()
    ensures most_proxies { MOST_PROXIES ≡ 8 }
    ensures most_screens { MOST_SCREENS ≡ 4 }
    ensures most_interlocks { MOST_INTERLOCKS ≡ 64 }
{}
