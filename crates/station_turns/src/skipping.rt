//! The stamps that a turn draws, and its skips.
ghost use Rattle.std.specs.Prelude.{◌≡◌, ◌<◌, false, IfOk};
ghost use Rattle.scenario_file.specs.Reading.{contents};
ghost use Rattle.world_history.specs.KeptState.{halted_in};
ghost use Rattle.station_turns.specs.Turns.{stationed, IsAlive, is_early, Draws};

use crate::held::Held;
use crate::live::Live;
use plain_lists::Want;
use scenario_file::Scenario;
use stamps::Stamps;
use world_entries::Event;

/// The most skips of a turn.
const MOST_SKIPS: u64 = 16;

/// Whether the stamp isn't above that of the held frame.
pub(crate) fn is_early(held: &Option<Held>, stamp: u64) -> bool
    ensures { result ≡ is_early held.now stamp }
{
    match held {
        Some(held) => stamp <= held.stamp,
        None => false,
    }
}

/// Draws a stamp for a turn: each that isn't above the held frame's, up to 16, is a skip. The turn's entry comes at the stamp
/// that is given, unless the actor was halted: then that is the stamp of the last skip.
pub(crate) fn draw(
    live: &mut Live,
    scenario: &Scenario,
    stamps: &Stamps,
    held: &Option<Held>,
) -> Result<u64, Want>
    requires alive { IsAlive (stationed live.old) live.old.used live.old.count }
    requires scenario { contents scenario.now ≡ live.old.kept.bench.world }
    requires of { live.old.seat.of ≡ stamps.now }
    requires running { halted_in live.old.kept.bench ≡ false }
    requires left { live.old.count < live.old.turns }
    ensures draws { IfOk result (λ stamp. Draws (stationed live.old) held.now stamp (stationed live.new)) }
    ensures counts { (live.new.used ≡ live.old.used) × (live.new.count ≡ live.old.count) }
{
    for _skip in 0..MOST_SKIPS {
        let stamp = stamps.draw(&mut live.seat);
        if !is_early(held, stamp) {
            return Ok(stamp);
        }
        live.kept.act(scenario, stamp, Event::Skip)?;
        if live.kept.halted() {
            return Ok(stamp);
        }
    }
    Ok(stamps.draw(&mut live.seat))
}
