ghost use Rattle.std.specs.Prelude.{◌≡◌, ◌+◌, OnOk, true, nat_lt};
ghost use Rattle.std.specs.List.{list_all};
ghost use Rattle.master_points.specs.Orders.{held_after};

use master_points::Master;
use message_types::Update;
use plain_lists::Want;

/// Does what executed updates say, one by one.
pub(crate) fn apply_all(points: &mut Master, updates: &[Update]) -> Result<(), Want>
    requires { list_all (λ u. nat_lt u.client (points.old.site.devices + points.old.site.screens)) updates.now ≡ true }
    ensures { OnOk result (points.new ≡ held_after points.old updates.now) }
{
    for update in updates {
        points.apply(update)?;
    }
    Ok(())
}
