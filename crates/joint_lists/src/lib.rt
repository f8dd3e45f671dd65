//! What single actors did, each by itself, and the histories that join their lists. A function that does nothing has a law as
//! its contract.
#![tactic(auto)]

ghost use Rattle.joint_lists.specs.Laws.{NextMayJoin, SameEntriesGoTheSame};

/// After two lists of an actor that are the same but for stamps, and for where their frames were said, the actor says the same
/// at the same event.
pub fn same_entries_go_the_same()
    ensures { SameEntriesGoTheSame }
{}

/// In whatever order actors' lists are joined, the next entry of each may come.
pub fn next_may_join()
    ensures { NextMayJoin }
{}
