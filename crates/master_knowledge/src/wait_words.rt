ghost use Rattle.std.specs.Prelude.{◌≡◌, ◌<◌, ◌^◌, OnOk, true};
ghost use Rattle.protocol_rules.specs.Group.{Group, is_live};
ghost use Rattle.leader_wait.specs.Waiting.{IsTold};

use crate::sets::are_live;
use leader_wait::wait::LeaderWait;
use plain_lists::Want;
use quorum_sets::Rules;
use summary_matrix::Reach;

/// Tells the wait of an event under the rules that stay alive: whether it is a tick, its view, and how far the latest
/// summaries make the requests of each master eligible. Under those first specified nobody goes by it, and it is told
/// nothing.
pub fn see_wait(
    wait: &mut LeaderWait,
    rules: Rules,
    at_tick: bool,
    view: u64,
    eligible: &Reach,
) -> Result<(), Want>
    requires { (g : Group) → rules ≡ g.rules → is_live g ≡ true → at_tick ≡ true → wait.old.ticks < 2 ^ 32 }
    ensures { OnOk result ((g : Group) → rules ≡ g.rules → is_live g ≡ true → IsTold wait.old wait.new at_tick view eligible.now.numbers) }
{
    if are_live(rules) {
        return wait.see(at_tick, view, eligible);
    }
    Ok(())
}
