//! A proxy at its events.
ghost use Rattle.std.specs.Prelude.{◌≡◌, ◌<◌, ◌^◌, ◌⊎◌, [], ◌∷◌, map, take, OnOk, OnErr, IfOk};
ghost use Rattle.message_types.specs.declared.body.Body.TheVariants as body;
ghost use Rattle.vouched_orders.specs.Vouching.{votes_in};
ghost use Rattle.field_proxy.specs.Front.{Front, IsFrontOf, after_change, after_poll};
ghost use Rattle.field_proxy.specs.Happenings.{Vouched, front_after};
ghost use Rattle.world_entries.specs.Entries.{event_of};
ghost use Rattle.world_rules.specs.Clients.{proxy_says};
ghost use Rattle.client_roles.specs.Roles.{IsProxyAfter};

use field_proxy::Proxy;
use message_types::{Body, Frame, Update};
use plain_lists::Want;
use point_table::Area;
use std::alloc::Global;
use world_entries::Event;

/// What a proxy says at an event, `room` words at most, and the proxy goes on. After want of memory it stays as it was but for
/// `Proxy::broken_off`, or has polled with words that nobody got.
pub fn answer_at_proxy(
    alloc: Global,
    proxy: &mut Proxy,
    event: &Event,
    room: u64,
) -> Result<Vec<Body>, Want>
    requires { proxy.old.updates < 2 ^ 62 }
    ensures said { IfOk result (λ said. (s : Front) → IsFrontOf proxy.old s → said.items ≡ take room (proxy_says s (event_of event.now))) }
    ensures after { IfOk result (λ said. IsProxyAfter proxy.old proxy.new (event_of event.now) said.items) }
    ensures err { OnErr result ((s : Front) → IsFrontOf proxy.old s → (IsFrontOf proxy.new s ⊎ IsFrontOf proxy.new (after_poll s room))) }
{
    match event {
        Event::Poll => {
            let updates = proxy.poll(room)?;
            as_bodies(alloc, &updates)
        }
        Event::Took { frame, .. } => {
            hear(proxy, frame.frame())?;
            Ok(Vec::new(alloc))
        }
        Event::Field { area, place, value } => {
            change_field(proxy, *area, *place, *value);
            Ok(Vec::new(alloc))
        }
        _ => Ok(Vec::new(alloc)),
    }
}

/// Updates as words.
fn as_bodies(alloc: Global, updates: &[Update]) -> Result<Vec<Body>, Want>
    ensures { IfOk result (λ bodies. bodies.items ≡ map body.Update updates.now) }
{
    let bodies = updates
        .iter()
        .map(|update| Body::Update(*update))
        .collect(alloc)?;
    Ok(bodies)
}

/// A change in the field. At a place that the device lacks nothing changes.
fn change_field(proxy: &mut Proxy, area: Area, place: u16, value: u16)
    ensures { (s : Front) → IsFrontOf proxy.old s → IsFrontOf proxy.new (after_change s area place value) }
{
    let _changed = proxy.change(area, place, value);
}

/// Takes a frame: of all frames a voucher alone tells a proxy something.
fn hear(proxy: &mut Proxy, frame: &Frame) -> Result<(), Want>
    ensures ok { OnOk result ((s : Front) → IsFrontOf proxy.old s → IsFrontOf proxy.new (front_after s (map Vouched (votes_in (frame.now ∷ []))))) }
    ensures err { OnErr result ((s : Front) → IsFrontOf proxy.old s → IsFrontOf proxy.new s) }
{
    match &frame.body {
        Body::Voucher(voucher) => proxy.take_voucher(frame.signer, voucher),
        _ => Ok(()),
    }
}
