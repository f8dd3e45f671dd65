ghost use Rattle.station_lives.specs.Laws.{NoneIsStation, BeginningIsStation, StationIsOwn, SaidStays, SaidTogether, WordsAreSaid, LivesSayOfTheLast, LivesSignOnce};

/// A station that has done nothing is one, and so is a beginning of what a station has done, which is an own history of its actor.
pub fn beginning_is_station()
    ensures none { NoneIsStation }
    ensures beginning { BeginningIsStation }
    ensures own { StationIsOwn }
{}

/// What was said stays said by more entries, and what is said one after another is said together. The words of an entry that is
/// there may be said, and so may those of all entries from a stamp on.
pub fn said_stays()
    ensures stays { SaidStays }
    ensures together { SaidTogether }
    ensures words { WordsAreSaid }
{}

/// Over all lives of one file all that was said is said by the entries that are there in the end, and no leaf of the actor's key
/// signed two groups of words.
pub fn lives_sign_once()
    ensures said { LivesSayOfTheLast }
    ensures leaves { LivesSignOnce }
{}
