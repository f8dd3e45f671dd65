//! What holds of printed runs: that the lines of entries read back, that a legal history's text tells it, that a play's does so
//! exactly, and that it changes nothing where the frames of a history were said. A function that does nothing has a law as its
//! contract.
#![tactic(auto)]

ghost use Rattle.printed_laws.specs.AlikeLaws.{AlikeComeToTheSame};
ghost use Rattle.printed_laws.specs.LineLaws.{PrintedLinesReadBack};
ghost use Rattle.printed_laws.specs.PlayLaws.{PlayedIsTold, PlayedTextsReadBack};
ghost use Rattle.printed_laws.specs.RunLaws.{PrintedRunsReadBack, TextsTellHistories};

/// Behind lines that tell no number of entries, so many lines of entries read as what each of them says.
pub fn printed_lines_read_back()
    ensures { PrintedLinesReadBack }
{}

/// Where two histories of a scenario tell the same, but for where the frames that they take were said, each actor says the
/// same after them, and has come to the same.
pub fn alike_come_to_the_same()
    ensures { AlikeComeToTheSame }
{}

/// Each legal history of fewer than 2^32 entries that the program can hold is told by its own printed text: what is read of
/// that text is the history, up to where the frames come from that it tells by their bytes, and is printed as the same text.
pub fn printed_runs_read_back()
    ensures { PrintedRunsReadBack }
{}

/// The printed text of a legal history of fewer than 2^32 entries tells the history, where the numbers and bytes of its lines
/// are within the program's types.
pub fn texts_tell_histories()
    ensures { TextsTellHistories }
{}

/// Each frame that an entry of a play takes was said where the entry tells, so the play's text names it by that.
pub fn played_is_told()
    ensures { PlayedIsTold }
{}

/// The printed text of a play tells the play's very history, where the numbers and bytes that its script and words put into
/// events are within the program's types.
pub fn played_texts_read_back()
    ensures { PlayedTextsReadBack }
{}
