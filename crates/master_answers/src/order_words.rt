ghost use Rattle.std.specs.Prelude.{◌≡◌, ◌++◌, List, OnOk, IfOk, filter};
ghost use Rattle.message_types.specs.declared.body.Body.{Body as Word};
ghost use Rattle.protocol_rules.specs.Matrix.{reach as reach_of};
ghost use Rattle.protocol_rules.specs.Order.{ordered_run, prepares_due, commits_due, marks_due};
ghost use Rattle.protocol_rules.specs.Worth.{worthy_prepares_due};
ghost use Rattle.words_by_part.specs.Kinds.{is_of, ordering};
ghost use Rattle.summary_matrix.specs.Held.{TellsEach};
ghost use Rattle.global_order.specs.OrderState.{HasSizes, IsOrderOf, Where, bodies_due};
ghost use Rattle.leader_proposals.specs.Counting.{KnowsFewRows};
ghost use Rattle.leader_proposals.specs.Worthy.{worthy_bodies_due};

use crate::{Split, split_words};
use global_order::Order;
use leader_proposals::worth::due_worthy;
use plain_lists::Want;
use quorum_sets::Sizes;
use std::alloc::Global;
use summary_matrix::Reach;

/// The prepares and commits due in a view, and the marks apart. They count as said from then on, whatever of other kinds
/// is said with them.
pub(crate) fn say_orders(
    alloc: Global,
    order: &mut Order,
    view: u64,
    is_open: bool,
) -> Result<Split, Want>
    ensures early { IfOk result (λ words. Where order.old (λ g facts said. words.early.items ≡ prepares_due g facts said view is_open ++ commits_due g facts said view)) }
    ensures late { IfOk result (λ words. Where order.old (λ g facts said. words.late.items ≡ marks_due g facts said)) }
    ensures said { OnOk result (Where order.old (λ g facts said. (all : List Word) → filter (is_of ordering) all ≡ bodies_due g facts said view is_open
        → IsOrderOf g order.new facts (said ++ all))) }
{
    let words = order.due(view, is_open)?;
    let split = split_words(alloc, words)?;
    Ok(split)
}

/// The same by the rules that stay alive: prepares only for what is worth one. `reach` is how far the numbers ordered
/// without a gap make the requests of each master eligible.
pub(crate) fn say_orders_alive(
    alloc: Global,
    order: &mut Order,
    sizes: &Sizes,
    view: u64,
    is_open: bool,
    reach: &Reach,
) -> Result<Split, Want>
    requires rows { KnowsFewRows order.old }
    ensures early { IfOk result (λ words. Where order.old (λ g facts said. HasSizes g sizes.now.n sizes.now.q → TellsEach reach.now.numbers (reach_of g (ordered_run g facts))
        → words.early.items ≡ worthy_prepares_due g facts said view is_open ++ commits_due g facts said view)) }
    ensures late { IfOk result (λ words. Where order.old (λ g facts said. HasSizes g sizes.now.n sizes.now.q → TellsEach reach.now.numbers (reach_of g (ordered_run g facts))
        → words.late.items ≡ marks_due g facts said)) }
    ensures said { OnOk result (Where order.old (λ g facts said. (all : List Word) → HasSizes g sizes.now.n sizes.now.q → TellsEach reach.now.numbers (reach_of g (ordered_run g facts))
        → filter (is_of ordering) all ≡ worthy_bodies_due g facts said view is_open → IsOrderOf g order.new facts (said ++ all))) }
{
    let words = due_worthy(order, sizes, view, is_open, reach)?;
    let split = split_words(alloc, words)?;
    Ok(split)
}
