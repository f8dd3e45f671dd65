ghost use Rattle.history_examples.specs.Examples.{SomethingIsExecuted, ExecutedUnderIntrudedLeader, TwoIntrudedDisagree, ForgedWordsDisagree, ExecutedAfterChangeOfView, ExecutedWithSharedLeaves, ExecutedWithoutHalted};

/// The laws of agreement have something to speak of: a plain run that is sound, with no master intruded, in which a
/// correct master executed an update.
pub fn something_is_executed()
    ensures { SomethingIsExecuted }
{}

/// And one with f masters intruded, the leader among them.
pub fn executed_under_intruded_leader()
    ensures { ExecutedUnderIntrudedLeader }
{}

/// The bound on intruded masters can't be left out: with f + 1 of them, in a legal history with nothing forged and no
/// digest shared, two correct masters executed different updates.
pub fn two_intruded_disagree()
    ensures { TwoIntrudedDisagree }
{}

/// Nor can it be left out that nothing is forged: with no master intruded, in a legal history with 18 forged words and no
/// digest shared, two correct masters executed different updates.
pub fn forged_words_disagree()
    ensures { ForgedWordsDisagree }
{}

/// One with a change of view, after which the correct leader of the new view executed what was prepared in the view before.
pub fn executed_after_change_of_view()
    ensures { ExecutedAfterChangeOfView }
{}

/// One of a group that bears a master away, with up to 32 bodies of an entry to a leaf: a correct master executed an update of
/// 40 orders, and vouched for as many as its last leaf could sign.
pub fn executed_with_shared_leaves()
    ensures { ExecutedWithSharedLeaves }
{}

/// And one in which a correct master is halted by its keeper and has no entry more, while another executed an update.
pub fn executed_without_halted()
    ensures { ExecutedWithoutHalted }
{}
