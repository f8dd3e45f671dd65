ghost use Rattle.std.specs.Prelude.{◌≡◌, ◌+◌, ◌<◌, ◌≤◌, ◌^◌, OnOk, true, false, if◌then◌else◌};
ghost use Rattle.protocol_rules.specs.Group.{Group, is_live};
ghost use Rattle.suspect_leader.specs.Sayings.{ticks_of_round_trip};
ghost use Rattle.suspect_leader.specs.MeasureState.{Learns, IsTold};

use crate::sets::are_live;
use message_types::Frame;
use plain_lists::Want;
use protocol_rules::MOST_TICKS;
use quorum_sets::Rules;
use suspect_leader::Measure;

/// Has the measures take a part under the rules first specified. Under those that stay alive nobody goes by measures, and
/// they take nothing, so that a flood of pings fills no memory.
pub fn take_measure_part(measure: &mut Measure, rules: Rules, part: &Frame) -> Result<(), Want>
    requires { ticks_of_round_trip part.now.body ≤ MOST_TICKS }
    ensures ticks { measure.new.ticks ≡ measure.old.ticks }
    ensures ok { OnOk result ((g : Group) → rules ≡ g.rules → is_live g ≡ false → Learns measure.old measure.new part.now) }
{
    if are_live(rules) {
        return Ok(());
    }
    measure.take(part.signer, &part.body)
}

/// Tells them of an event: whether it is a tick, its view, and whether the master waits for its leader.
pub fn tell_measure(
    measure: &mut Measure,
    at_tick: bool,
    view: u64,
    waits: bool,
) -> Result<(), Want>
    requires { at_tick ≡ true → measure.old.ticks < 2 ^ 32 }
    ensures ticks { OnOk result (measure.new.ticks ≡ measure.old.ticks + (if at_tick then 1 else 0)) }
    ensures told { OnOk result (IsTold measure.old measure.new record { is_tick = at_tick; view = view; waits = waits }) }
{
    if at_tick {
        measure.tick(view, waits)?;
    } else {
        measure.still(view, waits);
    }
    Ok(())
}
