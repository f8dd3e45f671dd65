//! The life of a station whose words and scenario were found right.
ghost use Rattle.std.specs.Prelude.{◌≡◌, ◌<◌, true, IfSome, length, option_copied};
ghost use Rattle.scenario_file.specs.Reading.{contents};
ghost use Rattle.scenario_file.specs.Valid.{IsScenario};
ghost use Rattle.script_grammar.specs.Names.{is_correct, who_of};
ghost use Rattle.world_rules.specs.Scenarios.{actors_in};
ghost use Rattle.printed_history.specs.Reading.{known_by};
ghost use Rattle.station_commands.specs.Lives.{LifeCause, halt_refusal, reach_of};

use crate::beginning::{begin_kept, open_named};
use crate::keep::Keep;
use crate::refusal::{StationFault, StationRefusal};
use command_ends::Refusal;
use outside::Sink;
use scenario_file::{HeldKeys, Scenario};
use station_files::Lines;
use stations::{Halt, live};
use std::alloc::Global;

/// Opens the file of this name, and lives the life of an actor, with these keys or all, and with what the file tells, until the
/// input ends.
pub(crate) fn live_kept<K: Keep, L: Lines, O: Sink>(
    alloc: Global,
    scenario: &Scenario,
    held: Option<&HeldKeys>,
    actor: u32,
    name: &str,
    keep: &mut K,
    lines: &mut L,
    out: &mut O,
) -> Result<(), StationRefusal>
    requires scenario { IsScenario (contents scenario.now) }
    requires there { actor < actors_in (contents scenario.now) }
    requires correct { is_correct (who_of (contents scenario.now)) actor ≡ true }
    requires ring { IfSome (option_copied held) (λ keys. length keys.ring ≡ actors_in (contents scenario.now)) }
    ensures { LifeCause (known_by scenario.now held.entry) actor name.now
        (reach_of (K.lies keep.old) (K.held keep.new) (K.faults keep.old) (K.faults keep.new) (L.waiting lines.old) (L.faults lines.old) (L.faults lines.new) (O.told out.old) (O.told out.new) (O.faults out.old) (O.faults out.new))
        result }
{
    let named = match open_named(alloc, name, keep) {
        Ok(named) => named,
        Err(refusal) => return Err(refusal),
    };
    let mut station = match begin_kept(alloc, scenario, held, actor, named, keep) {
        Ok(station) => station,
        Err(refusal) => return Err(refusal),
    };
    match live(&mut station, lines, keep, out) {
        Ok(()) => Ok(()),
        Err(halt) => Err(halt_refusal(halt)),
    }
}

fn halt_refusal(halt: Halt) -> StationRefusal
    ensures { result ≡ halt_refusal halt }
{
    match halt {
        Halt::Input => StationRefusal::Own(StationFault::Input),
        Halt::Keep => StationRefusal::Own(StationFault::Keep),
        Halt::Full => StationRefusal::Own(StationFault::Full),
        Halt::Output => StationRefusal::Known(Refusal::Output),
        Halt::Want => StationRefusal::Known(Refusal::Memory),
    }
}
