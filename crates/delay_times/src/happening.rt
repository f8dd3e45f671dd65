//! What happened in a history, as far as delays go by it.
ghost use Rattle.std.specs.Prelude.{◌≡◌};
ghost use Rattle.delay_times.specs.Happenings.{ends, is_end, is_tick, is_tick_of};

/// What happened to an actor.
#[derive(Clone, Copy)]
pub enum What {
    /// A tick of its clock.
    Tick,
    /// As a correct master it came into this view.
    Entered { view: u64 },
    /// As client number `client` it said its update number `t`.
    Said { client: u32, t: u64 },
    /// As a correct master it voted against the leader of this view.
    Voted { view: u64 },
    /// As a correct master it executed this client's update number `t`.
    Executed { client: u32, t: u64 },
    /// As a screen it showed a notice that answers its command number `t`, 0 for an alarm's change.
    Shown { t: u64 },
}

/// What happened to an actor at the entry of a stamp.
#[derive(Clone, Copy)]
pub struct Happening {
    pub stamp: u64,
    pub actor: u32,
    pub what: What,
}

/// An update by its client and its number among the client's, from 1.
#[derive(Clone, Copy)]
pub struct Name {
    pub client: u32,
    pub t: u64,
}

/// Whether the update came to its end there: the actor as a master executed it, or as a screen showed its answer.
pub(crate) fn ends(name: Name, actor: u32, happening: Happening) -> bool
    ensures { result ≡ ends name actor happening }
{
    happening.actor == actor && is_end(name, happening.what)
}

fn is_end(name: Name, what: What) -> bool
    ensures { result ≡ is_end name what }
{
    match what {
        What::Executed { client, t } => client == name.client && t == name.t,
        What::Shown { t } => t == name.t,
        _ => false,
    }
}

/// Whether it is a tick of the actor.
pub(crate) fn is_tick(actor: u32, happening: Happening) -> bool
    ensures { result ≡ is_tick actor happening }
{
    happening.actor == actor && is_tick_of(happening.what)
}

fn is_tick_of(what: What) -> bool
    ensures { result ≡ is_tick_of what }
{
    matches!(what, What::Tick)
}
