//! What joins a master as an object to histories. The functions do nothing; their contracts are the laws.

ghost use Rattle.master_node.specs.Laws.{SaysAsHistoriesDo, SilentSayNothingInHistories, TicksAreHeard, NothingToSign, KeepsItsCharge};

/// What a correct master says by its own events is what the rules of histories make it say after any own list whose silent
/// entries said nothing.
pub fn says_as_histories_do()
    ensures { SaysAsHistoriesDo }
{}

/// The own lists of correct masters in legal histories are such lists.
pub fn silent_say_nothing()
    ensures { SilentSayNothingInHistories }
{}

/// A master's state keeps what it is charged with.
pub fn keeps_its_charge()
    ensures { KeepsItsCharge }
{}

/// A master counts its ticks.
pub fn ticks_are_heard()
    ensures { TicksAreHeard }
{}

/// Where a master said nothing at an event, it needs no frames to go on.
pub fn nothing_to_sign()
    ensures { NothingToSign }
{}
