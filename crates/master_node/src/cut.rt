ghost use Rattle.std.specs.Prelude.{◌≡◌, ◌+◌, ◌≤◌, length, take};
ghost use Rattle.history_rules.specs.Leaves.{leaves_for, room_of};

use message_types::Body;

/// How many leaves so many bodies of one event use.
fn leaves_for(shared: bool, count: u64) -> u64
    requires { count ≤ 9223372036854775807 }
    ensures { result ≡ leaves_for shared count }
{
    if shared { (count + 31) / 32 } else { count }
}

/// Leaves the first of the bodies, as many as so many leaves can sign, and tells how many leaves those use.
pub(crate) fn cut(bodies: &mut Vec<Body>, leaves: u64, shared: bool) -> u64
    ensures bodies { bodies.new.items ≡ take (room_of shared leaves) bodies.old.items }
    ensures used { result ≡ leaves_for shared (length bodies.new.items) }
    ensures left { result ≤ leaves }
{
    let wanted = leaves_for(shared, bodies.len() as u64);
    if wanted <= leaves {
        return wanted;
    }
    let room = if shared { 32 * leaves } else { leaves };
    bodies.truncate(room as usize);
    leaves
}
