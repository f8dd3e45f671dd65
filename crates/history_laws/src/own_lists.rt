ghost use Rattle.history_laws.specs.Leaves.{LeafSignsOneGroup};
ghost use Rattle.history_laws.specs.OwnLists.{OwnOfLegal, MergedIsLegal, MergedHasOwnLists, NoneIsLegal, OneMoreIsLegal, NoneIsOwn, OneMoreIsOwn, OwnEntryIsLegal, NoneIsBenchList, OneMoreIsBenchList, OwnHistoryIsBenchList, UnhaltedIsOwnHistory, IntrudedSayNothing};

/// Of a legal history each actor's own entries are a list that the actor could make alone.
pub fn own_of_legal()
    ensures { OwnOfLegal }
{}

/// Lists that the actors could make alone, whose stamps are the numbers from 0 on, each once, merge to a legal history, and
/// they are the actors' own lists of it.
pub fn merged_is_legal()
    ensures legal { MergedIsLegal }
    ensures own { MergedHasOwnLists }
{}

/// A legal history is built entry by entry.
pub fn one_more_is_legal()
    ensures none { NoneIsLegal }
    ensures more { OneMoreIsLegal }
{}

/// An actor's own list is built entry by entry.
pub fn one_more_is_own()
    ensures none { NoneIsOwn }
    ensures more { OneMoreIsOwn }
{}

/// What an actor can add to its own list of a history, with the next stamp, can come in that history.
pub fn own_entry_is_legal()
    ensures { OwnEntryIsLegal }
{}

/// The list of no entries is a bench's.
pub fn none_is_bench_list()
    ensures { NoneIsBenchList }
{}

/// So is one with one more entry that its actor could add.
pub fn one_more_is_bench_list()
    ensures { OneMoreIsBenchList }
{}

/// An actor's own history is a bench's list.
pub fn own_history_is_bench_list()
    ensures { OwnHistoryIsBenchList }
{}

/// A bench's list whose actor was never halted before an entry is an own history.
pub fn unhalted_is_own_history()
    ensures { UnhaltedIsOwnHistory }
{}

/// An intruded master says nothing by itself.
pub fn intruded_say_nothing()
    ensures { IntrudedSayNothing }
{}

/// Over a whole history each leaf of an actor's key signs one group of what it says.
pub fn leaf_signs_one_group()
    ensures { LeafSignsOneGroup }
{}
