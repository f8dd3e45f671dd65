ghost use Rattle.station_rules.specs.Laws.{AnsweredIsStation, AnswerIsSaid, LinesKeepStation, LinesAreSaid, StartedHasEntry, StandingFramesAreTaken};

/// Whatever line comes, what a station makes of it leaves it a station. The same of the start.
pub fn answered_is_station()
    ensures one { AnsweredIsStation }
    ensures lines { LinesKeepStation }
{}

/// Whatever line comes, what is told on it is notes and words of the station's entries, that of the line among them. The same of
/// the start.
pub fn answer_is_said()
    ensures one { AnswerIsSaid }
    ensures lines { LinesAreSaid }
{}

/// A station that was started has an entry, and so takes each frame that stands, unless it is halted or took it before.
pub fn started_takes_frames()
    ensures started { StartedHasEntry }
    ensures takes { StandingFramesAreTaken }
{}
