//! What holds of every legal history of every scenario. Each function does nothing: its contract is a law.
ghost use Rattle.world_rules.specs.Headline.{HeadlineHolds};
ghost use Rattle.world_rules.specs.Laws.{SizesOfGroup, OrdersGoByPlant, LeavesOfAll, SeedHasKeys, SignaturesSign, NoVoteInside, SetupGoesBy};

/// While at most f masters are intruded, no word is forged and no digest is shared, the correct masters agree, each update
/// executed was said by its client once and before, and each proxy's writes begin a correct master's orders.
pub fn headline_of_legal()
    ensures { HeadlineHolds }
{}

/// What a scenario's histories go by is what the scenario says, part by part.
pub fn setup_goes_by()
    ensures { SetupGoesBy }
{}

/// The group of a scenario has the sizes of a group.
pub fn sizes_of_group()
    ensures { SizesOfGroup }
{}

/// The orders of a scenario's histories are those that its plant's rules make.
pub fn orders_go_by_plant()
    ensures { OrdersGoByPlant }
{}

/// All actors' keys have equally many leaves.
pub fn leaves_of_all()
    ensures { LeavesOfAll }
{}

/// Where a scenario's seed is known, each actor's words are checked by the key with which it signs.
pub fn seed_has_keys()
    ensures { SeedHasKeys }
{}

/// Where an actor has its key, and leaves enough left, its signatures of an entry's bodies are within the limits, and its key
/// bears them out.
pub fn signatures_sign()
    ensures { SignaturesSign }
{}

/// No voucher stands inside another frame.
pub fn no_vote_inside()
    ensures { NoVoteInside }
{}
