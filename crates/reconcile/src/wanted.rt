ghost use Rattle.std.specs.Prelude.{◌≡◌};
ghost use Rattle.reconcile.specs.Asking.{wanted_in, ask_for};

use message_types::{AskOrder, AskUpdate, Body};

/// What a master may lack and another may give.
#[derive(Clone, Copy, Debug, PartialEq, Eq, PartialOrd, Ord)]
pub enum Wanted {
    /// The certificate of request number `k` of master `j`.
    Request { j: u32, k: u64 },
    /// The rows of global number `s`.
    Number { s: u64 },
}

/// What a body asks for.
pub fn asked_in(body: &Body) -> Option<Wanted>
    ensures { result ≡ wanted_in body.now }
{
    match body {
        Body::AskUpdate(ask) => Some(Wanted::Request { j: ask.j, k: ask.k }),
        Body::AskOrder(ask) => Some(Wanted::Number { s: ask.s }),
        _ => None,
    }
}

/// The body that asks for it.
pub(crate) fn asking(wanted: Wanted) -> Body
    ensures { result ≡ ask_for wanted }
{
    match wanted {
        Wanted::Request { j, k } => Body::AskUpdate(AskUpdate { j, k }),
        Wanted::Number { s } => Body::AskOrder(AskOrder { s }),
    }
}
