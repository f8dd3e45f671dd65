//! What holds of the trends of every history. Each function does nothing: its contract is a law.
ghost use Rattle.run_questions.specs.TrendLaws.{AlwaysMatches, IsNotReachedWhereFew, PrintsTheChangesOfAll, PrintsTheChangesOfOne};

/// What is printed are the point's changes in some correct master's executions.
pub fn prints_the_changes_of_one()
    ensures { PrintsTheChangesOfOne }
{}

/// While at most f masters are intruded, no word is forged and no digest is shared, what is printed are the point's changes in
/// the executions of every correct master that executed up to the last number.
pub fn prints_the_changes_of_all()
    ensures { PrintsTheChangesOfAll }
{}

/// So long it never comes that too few answers are equal.
pub fn always_matches()
    ensures { AlwaysMatches }
{}

/// A number isn't reached exactly where no more than f correct masters executed so many updates.
pub fn is_not_reached_where_few()
    ensures { IsNotReachedWhereFew }
{}
