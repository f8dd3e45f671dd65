ghost use Rattle.replica_threads.specs.Ended.{RunsStampOnce, HistoriesAreLegal};

/// In what a run of threads comes to, each stamp is that of one entry, and the history that its lists merge to is legal.
pub fn runs_are_legal()
    ensures once { RunsStampOnce }
    ensures legal { HistoriesAreLegal }
{}
