ghost use Rattle.std.specs.Prelude.{◌≡◌, ◌+◌, ◌≤◌, ◌∷◌, ◌++◌, [], OnOk, List, ℕ, Option, Some};
ghost use Rattle.message_types.specs.declared.updates.Update.{Update as Change};
ghost use Rattle.message_types.specs.declared.body.Body.{Body as Word};
ghost use Rattle.protocol_rules.specs.declared.facts.OrderFact.{OrderFact as Fact};
ghost use Rattle.protocol_rules.specs.Group.{Group};
ghost use Rattle.protocol_rules.specs.Execution.{Request};
ghost use Rattle.protocol_rules.specs.Order as rules;
ghost use Rattle.global_order.specs.OrderState.{IsOrderOf, Where};
ghost use Rattle.execution.specs.Ran.{IsRunOf};
ghost use Rattle.master_knowledge.specs.Numbers.{IsBehind};

use execution::Run;
use global_order::Order;
use plain_lists::Want;

/// Has the execution take the rows of the numbers that it didn't take yet, up to the first that isn't ordered.
pub fn take_numbers(run: &mut Run, order: &Order) -> Result<(), Want>
    requires { IsBehind run.old order.now }
    ensures { OnOk result ((g : Group) (certified : Request → Option Change) (facts : List Fact) (said : List Word) (before after : List (List (List ℕ)))
        → IsOrderOf g order.now facts said → rules.ordered_run g facts ≡ before ++ after
        → IsRunOf g run.old certified before → IsRunOf g run.new certified (rules.ordered_run g facts)) }
{
    for s in run.numbers() + 1..order.gapless() + 1 {
        take_number(run, order, s)?;
    }
    Ok(())
}

/// Has it take the rows of the next number.
fn take_number(run: &mut Run, order: &Order, s: u64) -> Result<(), Want>
    requires behind { IsBehind run.old order.now }
    requires next { s ≡ run.old.numbers + 1 }
    requires ordered { Where order.now (λ g facts said. s ≤ rules.gapless g facts) }
    ensures group { run.new.group ≡ run.old.group }
    ensures number { OnOk result (run.new.numbers ≡ run.old.numbers + 1) }
    ensures ok { OnOk result ((g : Group) (certified : Request → Option Change) (facts : List Fact) (said : List Word) (runs : List (List (List ℕ))) (rows : List (List ℕ))
        → IsOrderOf g order.now facts said → rules.ordered g facts s ≡ Some rows
        → IsRunOf g run.old certified runs → IsRunOf g run.new certified (runs ++ rows ∷ [])) }
{
    match order.ordered(s) {
        Some(rows) => run.take_rows(rows),
        None => Ok(()),
    }
}
