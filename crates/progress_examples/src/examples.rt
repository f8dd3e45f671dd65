ghost use Rattle.progress_examples.specs.Examples.{ExecutedInNineRounds, ExecutedAfterVotes, VotesDontSpread};

/// All premises of progress under a correct leader are met by a history of nine rounds, with an intruded master, in which no
/// connected master executed anything after eight: fewer rounds wouldn't do.
pub fn executed_in_nine_rounds()
    ensures { ExecutedInNineRounds }
{}

/// The premises of the laws of how a view is left are met by one with an intruded leader: the votes of connected masters spread,
/// all leave the view, the next one opens, and each connected master executes the update.
pub fn executed_after_votes()
    ensures { ExecutedAfterVotes }
{}

/// Under the rules first specified votes don't spread: a history that meets all other premises of the law that they do.
pub fn votes_dont_spread()
    ensures { VotesDontSpread }
{}
