//! What the masters of a history have certified, by their benches.
ghost use Rattle.std.specs.Prelude.{◌≡◌, ◌<◌, ℕ, List, option_copied};
ghost use Rattle.scenario_file.specs.Reading.{Contents};
ghost use Rattle.history_rules.specs.Events.{Entry};
ghost use Rattle.world_rules.specs.Scenarios.{masters_in, setup_of};
ghost use Rattle.world_history.specs.Benches.{AreBenches};
ghost use Rattle.run_questions.specs.PartsText.{certified_by, first_certified};

use message_types::Update;
use world_history::Bench;

/// A request by its originator and its number.
#[derive(Clone, Copy)]
pub(crate) struct Request {
    pub originator: u32,
    pub number: u64,
}

/// The update that a correct master has certified as the request; of others none.
pub(crate) fn certified_by(benches: &[Bench], master: u32, request: Request) -> Option<&Update>
    ensures { (c : Contents) (history : List Entry) → AreBenches c history benches.now → master < masters_in c
        → option_copied result ≡ certified_by (setup_of c) history request.originator request.number master }
{
    match benches.get(master as usize) {
        Some(bench) => bench.certified(request.originator, request.number),
        None => None,
    }
}

/// The update that the least of `n` masters has certified that has any.
pub(crate) fn first_certified(benches: &[Bench], n: u32, request: Request) -> Option<&Update>
    ensures { (c : Contents) (history : List Entry) → AreBenches c history benches.now → n ≡ masters_in c
        → option_copied result ≡ first_certified (setup_of c) history request.originator request.number }
{
    for master in 0..n {
        if let Some(update) = certified_by(benches, master, request) {
            return Some(update);
        }
    }
    None
}
