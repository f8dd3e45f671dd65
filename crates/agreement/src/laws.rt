ghost use Rattle.agreement.specs.Laws.{QuorumsMeet, ViewInduction, CertifiedAgree, VotesAreKnown, CommittedStays, OrderedAgree, ExecutionsAgree, ExecutionsGrow, ExecutedWereSaid, NoneExecutedTwice, VouchedBegin, DoneBegins};
ghost use Rattle.agreement.specs.Blame.{AcknowledgesOnce, ProposesOnce, PreparesOnce, CommitsOnce};

/// Two quorums of a group share a master that isn't intruded.
pub fn quorums_meet()
    ensures { QuorumsMeet }
{}

/// The induction on views over plain lists of certificates and of the reports by which views began: no later view
/// prepares other rows for a number.
pub fn view_induction()
    ensures { ViewInduction }
{}

/// What correct masters have certified as one request is one update.
pub fn certified_agree()
    ensures { CertifiedAgree }
{}

/// Votes of a quorum that one correct master knows are a quorum's words as far as correct masters know.
pub fn votes_are_known()
    ensures { VotesAreKnown }
{}

/// What a quorum committed, no quorum prepares otherwise in its view or a later one, whichever correct masters know of
/// either.
pub fn committed_stays()
    ensures { CommittedStays }
{}

/// What correct masters have ordered as one number is the same.
pub fn ordered_agree()
    ensures { OrderedAgree }
{}

/// Of what any two correct masters have executed, at any two times, one begins the other.
pub fn executions_agree()
    ensures { ExecutionsAgree }
{}

/// What a master has executed only grows.
pub fn executions_grow()
    ensures { ExecutionsGrow }
{}

/// Each update that a correct master executed was said by its client before that master first took a frame with it.
pub fn executed_were_said()
    ensures { ExecutedWereSaid }
{}

/// No client and number stand twice in what a master executed.
pub fn none_executed_twice()
    ensures { NoneExecutedTwice }
{}

/// Orders of a client that more than f masters vouch for, one by one, begin the orders of some correct master.
pub fn vouched_begin()
    ensures { VouchedBegin }
{}

/// What a proxy or a screen has done begins the orders of some correct master.
pub fn done_begins()
    ensures { DoneBegins }
{}

/// A correct master acknowledges one update for each request.
pub fn acknowledges_once()
    ensures { AcknowledgesOnce }
{}

/// A correct leader proposes once for each number of a view.
pub fn proposes_once()
    ensures { ProposesOnce }
{}

/// A correct master prepares once for each number of a view.
pub fn prepares_once()
    ensures { PreparesOnce }
{}

/// A correct master commits once for each number of a view.
pub fn commits_once()
    ensures { CommitsOnce }
{}
