ghost use Rattle.history_audit.specs.Legal.{LegalAreSpelled, FewEachAreShort, ShortAreFewEach};
ghost use Rattle.history_audit.specs.Prefixes.{AgreesByLists};

/// The correct masters of a history agree exactly where of any two of their executions one begins the other.
pub fn agrees_by_lists()
    ensures { AgreesByLists }
{}

/// All that was said in a legal history of a scenario, of at most 2^32 entries of each actor, has a spelling.
pub fn legal_are_spelled()
    ensures { LegalAreSpelled }
{}

/// A legal history of at most 2^32 entries of each actor has fewer than 2^52, and one of at most 2^32 entries has as few of
/// each actor.
pub fn few_each()
    ensures all { FewEachAreShort }
    ensures each { ShortAreFewEach }
{}
