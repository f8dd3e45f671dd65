//! What a scenario's actors are charged with, sign and check. Each function does nothing: its contract is a law.
ghost use Rattle.world_history.specs.Laws.{ChargedBySetup, MasterSays, MasterIsHanded, StandingIsWhole, StandsByRing, LeavesAreFew, LeavesUsedNext, GroupsUseLeaves, LeavesEnough, SignaturesForAll, SignedBySignatures};

/// A scenario's setup charges its masters as the scenario does.
pub fn charged_by_setup()
    ensures { ChargedBySetup }
{}

/// A correct master's object says what the rules make the master say.
pub fn master_says()
    ensures { MasterSays }
{}

/// The frames that it is to be handed are those of its entry.
pub fn master_is_handed()
    ensures { MasterIsHanded }
{}

/// A frame that stands is whole.
pub fn standing_is_whole()
    ensures { StandingIsWhole }
{}

/// A frame stands in a scenario's histories exactly where it stands by the actors' public keys.
pub fn stands_by_ring()
    ensures { StandsByRing }
{}

/// A scenario's keys have at most 2^30 leaves, an entry uses one for each group of its bodies, and has enough.
pub fn leaves_suffice()
    ensures few { LeavesAreFew }
    ensures next { LeavesUsedNext }
    ensures groups { GroupsUseLeaves }
    ensures enough { LeavesEnough }
{}

/// The frames of an entry are its bodies with the signatures that its actor's key makes of them, one for each.
pub fn signed_by_signatures()
    ensures all { SignaturesForAll }
    ensures frames { SignedBySignatures }
{}
