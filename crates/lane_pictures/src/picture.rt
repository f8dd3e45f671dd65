//! What a picture of a history shows, before it is drawn.
ghost use Rattle.std.specs.Prelude.{◌≡◌};
ghost use Rattle.lane_pictures.specs.Drawing.{has, is_master};

use script_grammar::Kind;

/// What an actor is.
#[derive(Clone, Copy)]
pub enum Role {
    Master,
    Intruded,
    Client,
}

impl Role {
    /// Whether it is a correct master.
    pub(crate) fn is_master(self) -> bool
        ensures { result ≡ is_master self }
    {
        match self {
            Role::Master => true,
            Role::Intruded | Role::Client => false,
        }
    }
}

/// The lane of an actor.
#[derive(Clone, Copy)]
pub struct Lane {
    pub actor: u32,
    pub role: Role,
    /// Whether a call of the actor's keeper failed, so that it does nothing any more.
    pub is_halted: bool,
}

/// What came to an actor at an entry.
#[derive(Clone, Copy)]
pub enum What {
    /// A frame of this kind, which this actor said at that stamp; None where nobody said it.
    Took {
        kind: Kind,
        by: u32,
        said_at: Option<u64>,
    },
    Tick,
    Command,
    Field,
    Poll,
    Cry,
    Skip,
    Restart,
}

/// An entry of a history.
#[derive(Clone, Copy)]
pub struct Mark {
    pub stamp: u64,
    pub actor: u32,
    pub role: Role,
    /// The stamp of the actor's entry before.
    pub since: Option<u64>,
    pub what: What,
    /// How many words were said there, how many updates a master executed, how many values a proxy wrote, and how many
    /// notices a screen showed.
    pub said: u64,
    pub executed: u64,
    pub written: u64,
    pub shown: u64,
    /// A correct master's view before the entry, and after it.
    pub was: u64,
    pub view: u64,
}

/// The entries from one stamp to another, both of them among these.
#[derive(Clone, Copy)]
pub struct Range {
    pub first: u64,
    pub last: u64,
}

impl Range {
    /// Whether a stamp is among these.
    pub(crate) fn has(self, stamp: u64) -> bool
        ensures { result ≡ has self stamp }
    {
        self.first <= stamp && stamp <= self.last
    }
}
