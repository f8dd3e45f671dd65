//! The text of a history's delays.
ghost use Rattle.std.specs.Prelude.{◌≡◌, ◌<◌, ◌^◌, length, IfOk};
ghost use Rattle.scenario_file.specs.Reading.{contents};
ghost use Rattle.scenario_file.specs.Valid.{IsScenario};
ghost use Rattle.history_rules.specs.Legal.{IsLegal};
ghost use Rattle.world_rules.specs.Scenarios.{setup_of};
ghost use Rattle.run_questions.specs.DelaysText.{delays_in};

use crate::delays::watching::watched_in;
use delay_times::delays_of;
use plain_lists::Want;
use scenario_file::Scenario;
use std::alloc::Global;
use world_entries::History;

/// The text of a legal history's delays. The line `views X`, and X lines `view V leader mI from STAMP to STAMP votes N idle N`; the
/// line `spreads X`, and X lines `CLIENT at ACTOR said N ended N entries A B C D ticks A B C D`; the line `unexecuted X`, and X
/// lines `CLIENT T said STAMP executed N`; the line `outcomes X`, and X lines
/// `CLIENT T said STAMP at ACTOR tick N ended STAMP entries N ticks N`. The history is acted once more.
#[tactic(auto, unfolding(crate::specs::DelaysText::delays_in))]
pub fn delays_text(alloc: Global, scenario: &Scenario, history: &History) -> Result<Vec<u8>, Want>
    requires valid { IsScenario (contents scenario.now) }
    requires legal { IsLegal (setup_of (contents scenario.now)) history.now }
    requires short { length history.now < 2 ^ 32 }
    ensures { IfOk result (λ text. text.items ≡ delays_in (contents scenario.now) history.now) }
{
    let watched = watched_in(alloc, scenario, history)?;
    let delays = delays_of(alloc, &watched)?;
    delay_times::delays_text(alloc, scenario.cast(), &delays)
}
