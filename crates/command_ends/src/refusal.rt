use plain_lists::Text;

/// What is wrong with a scenario: the first fault. A name is a key's.
#[derive(Drop)]
pub enum ScenarioFault {
    BadToml,
    MissingKey { name: Text },
    BadValue { name: Text },
    TooMany { name: Text },
    UnknownKey { name: Text },
}

/// What is wrong with a line of a script or of words, with a play at a line of its script, or with a history.
#[derive(Clone, Copy, Debug, PartialEq, Eq)]
pub enum LineFault {
    /// The line isn't of its form.
    BadLine,
    /// An actor that the line names isn't there, or hasn't the line's role.
    NoActor,
    /// A frame or a word that the line names isn't there.
    NoFrame,
    /// At the line the play would have too many entries.
    TooMany,
    /// No correct actors do what the history says.
    NotLegal,
}

/// Why a command whose files were read has nothing to print.
#[derive(Clone, Copy, Debug, PartialEq, Eq)]
pub enum NoAnswer {
    /// No correct master has the request certified.
    NotCertified,
    /// No f + 1 of the parts are those of one text that has the digest.
    NoText,
    /// The plant has no such point.
    NoPoint,
    /// The range begins before the first execution, or ends before it begins.
    BadRange,
    /// Fewer than f + 1 correct masters executed up to the range's end. So many executed this many.
    NotReached { executed: u64 },
    /// No f + 1 correct masters that executed up to the range's end give one answer.
    NoMatch,
    /// A picture's range ends before it begins.
    BadPart,
    /// A picture's range goes beyond the history, whose last stamp is this one, 0 where it has no entry.
    NoSuchEntry { last: u64 },
    /// The plant has no point that could be plotted under this number.
    NoPlot,
}

/// Why a file isn't what a station kept.
#[derive(Clone, Copy, Debug, PartialEq, Eq)]
pub enum KeepFault {
    /// The first line that isn't of its form. Lines are counted from 1.
    BadLine { line: u64 },
    /// The first entry, from 0, that can't come after those before it.
    NotLegal { stamp: u64 },
    /// The first entry, from 0, at which other words were said than those that this program says there.
    OtherWords { stamp: u64 },
    /// The file's actor has given one before.
    Twice,
}

/// Why a call didn't put its whole text.
#[derive(Drop)]
pub enum Refusal {
    /// The words aren't a command.
    Usage,
    /// The file could not be loaded.
    Fault { name: Text },
    /// The file is longer than it may be.
    TooLong { name: Text },
    Scenario { fault: ScenarioFault },
    /// The script is refused, or its play is. Lines are counted from 1.
    Script { fault: LineFault, line: u64 },
    Words { fault: LineFault, line: u64 },
    /// The number is a line's, counted from 1, or a stamp.
    History { fault: LineFault, number: u64 },
    /// The line of a file of parts isn't of its form. Lines are counted from 1.
    Pieces { line: u64 },
    /// The file isn't what a station kept.
    Keep { name: Text, fault: KeepFault },
    /// The signature isn't one of the message.
    NotVerified,
    NoAnswer { why: NoAnswer },
    /// The output failed.
    Output,
    Memory,
}
