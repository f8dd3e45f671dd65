//! What holds of stations that have their own key alone. Each function does nothing: its contract is a law.
ghost use Rattle.key_owners.specs.Laws.{OwnersAreStations, OwnersKeepTheSame, OwnersSayTheSame};

/// What the owner of an actor's key does without the scenario's seed is a station's list of the whole scenario, whoever holds
/// that: of each one whose ring is the owner's, and whose key of the actor is the owner's.
pub fn owners_are_stations()
    ensures { OwnersAreStations }
{}

/// The file that it keeps is the one that the whole scenario's station keeps of the list, so whoever has the seed reads it.
pub fn owners_keep_the_same()
    ensures { OwnersKeepTheSame }
{}

/// So are the words that it puts out at each entry.
pub fn owners_say_the_same()
    ensures { OwnersSayTheSame }
{}
