//! What holds of a run of threads as a history. The function does nothing: its contract is a law.
ghost use Rattle.station_turns.specs.Laws.{DrawnOnceIsStampedOnce, RunIsLegal};

/// Where the stamps of all actors' lists are the numbers from 0 on, each once, each is the stamp of just one entry. Lists that
/// the actors could make alone then merge to a legal history, whatever the order in which the stamps were drawn.
pub fn run_is_legal()
    ensures once { DrawnOnceIsStampedOnce }
    ensures legal { RunIsLegal }
{}
