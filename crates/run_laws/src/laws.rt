ghost use Rattle.run_laws.specs.Laws.{RunsExist, ScriptsHaveRuns};

/// A run in threads is there for whatever each actor can be given, and so for each script and words that were read for a
/// scenario. So what a clause says of all such runs isn't said of none.
pub fn runs_exist()
    ensures given { RunsExist }
    ensures scripts { ScriptsHaveRuns }
{}
