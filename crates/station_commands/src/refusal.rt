//! Why a station ends before its input does.
use command_ends::{KeepFault, Refusal};

/// What ends a station alone, and no other command.
#[derive(Clone, Copy, Debug, PartialEq, Eq)]
pub enum StationFault {
    /// Another process has the file.
    InUse,
    /// The file isn't what the actor kept.
    NotKept { fault: KeepFault },
    /// The first line of the ring's file that isn't its actor's. Lines are counted from 1.
    BadRing { line: u64 },
    /// The own key's file isn't the actor's line.
    BadKey { line: u64 },
    /// The own key isn't the one whose public key the ring has for the actor.
    OtherKey,
    /// The lines can't be read any more.
    Input,
    /// The file couldn't be written or made durable.
    Keep,
    /// The file would have more bytes than are read again.
    Full,
}

/// Why a station didn't live until its input ended.
#[derive(Drop)]
pub enum StationRefusal {
    /// What ends other commands too: the words, a file, a scenario, the output, memory.
    Known(Refusal),
    Own(StationFault),
}
