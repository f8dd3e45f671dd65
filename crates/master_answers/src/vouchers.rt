ghost use Rattle.std.specs.Prelude.{◌≡◌, ◌+◌, ◌<◌, ◌≤◌, ℕ, List, [], Some, IfOk, OnOk, OnErr, length, slice_get, slice_index};
ghost use Rattle.std.specs.List.{flat_map, slice_index_or};
ghost use Rattle.message_types.specs.declared.body.Body.{Body as Word};
ghost use Rattle.message_types.specs.declared.vouchers.Order.{Order};
ghost use Rattle.quorum_sets.specs.Masters.{numbers_below};
ghost use Rattle.protocol_rules.specs.Parts.{Grows};
ghost use Rattle.protocol_rules.specs.Master.{vouchers_from};
ghost use Rattle.leader_proposals.specs.Saying.{AreVouchersOf};

use leader_proposals::Vouchers;
use master_points::Master;
use message_types::Body;
use plain_lists::Want;
use quorum_sets::MOST_CLIENTS;
use std::alloc::Global;

/// The vouchers due for all clients in turn, which count as said from then on. Without memory for them nothing changes:
/// they are counted on a copy.
pub fn say_vouchers(
    alloc: Global,
    vouchers: &mut Vouchers,
    points: &Master,
) -> Result<Vec<Body>, Want>
    requires few { points.now.site.devices + points.now.site.screens ≤ MOST_CLIENTS }
    requires counts { (c : ℕ) → c < points.now.site.devices + points.now.site.screens → slice_index vouchers.old.counts c ≤ length (slice_index_or points.now.lists c []) }
    ensures due { IfOk result (λ bodies. (said : List Word) (orders : ℕ → List Order)
        → ((c : ℕ) → c < points.now.site.devices + points.now.site.screens → slice_get points.now.lists c ≡ Some (orders c))
        → AreVouchersOf vouchers.old.counts said
        → bodies.items ≡ flat_map (λ c. vouchers_from said c 1 (orders c)) (numbers_below (points.now.site.devices + points.now.site.screens))) }
    ensures said { IfOk result (λ bodies. (orders : ℕ → List Order)
        → ((c : ℕ) → c < points.now.site.devices + points.now.site.screens → slice_get points.now.lists c ≡ Some (orders c))
        → Grows (AreVouchersOf vouchers.old.counts) (AreVouchersOf vouchers.new.counts) bodies.items) }
    ensures counts { OnOk result ((c : ℕ) → c < points.now.site.devices + points.now.site.screens → slice_index vouchers.new.counts c ≡ length (slice_index_or points.now.lists c [])) }
    ensures refused { OnErr result (vouchers.new ≡ vouchers.old) }
{
    let mut counted = Vouchers {
        counts: vouchers.counts,
    };
    let mut bodies = Vec::new(alloc);
    for client in 0..points.clients() {
        counted.due_for(&mut bodies, client, points.orders(client))?;
    }
    *vouchers = counted;
    Ok(bodies)
}
