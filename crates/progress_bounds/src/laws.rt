ghost use Rattle.progress_bounds.specs.Bounds.{SaidOnce, SaidSlowly, FewATick, AsksWithinShare, AcksForUpdates};

/// A prepare, a commit, a mark, a report, a new view and a voucher a correct master says once.
pub fn said_once()
    ensures { SaidOnce }
{}

/// A request, an acknowledgement, a vote and an ask it says once, and again at no more than each 16th or 32nd tick.
pub fn said_slowly()
    ensures { SaidSlowly }
{}

/// It offers at most one number a tick, says one summary a tick and now and then the last once more, asks 80 times a tick, and
/// measures nothing.
pub fn few_a_tick()
    ensures { FewATick }
{}

/// It answers each other master's asks no more often than that one's share is.
pub fn asks_within_share()
    ensures { AsksWithinShare }
{}

/// It acknowledges of one door no more requests than the door's clients said updates, each for its client.
pub fn acks_for_updates()
    ensures { AcksForUpdates }
{}
