//! What holds beyond the calls.
ghost use Rattle.std.specs.Prelude.{◌≡◌, codes, Ok};
ghost use Rattle.scenario_file.specs.Reading.{scenario_in, smallest};

use crate::scenario::Scenario;

/// Three lines are the whole file of the smallest scenario.
pub fn smallest_text()
    ensures { scenario_in (codes "f = 1\nseed = \"0000000000000000000000000000000000000000000000000000000000000000\"\nscreens = 1\n") ≡ Ok smallest }
{}

fn moves<T: Send>(_value: &T) {}

fn lends<T: Sync>(_value: &T) {}

/// A scenario may be handed to another thread, and lent to several.
pub fn crosses_threads(scenario: &Scenario) {
    moves(scenario);
    lends(scenario);
}
