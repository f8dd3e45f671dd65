ghost use Rattle.std.specs.Prelude.{◌≡◌, ◌++◌, ℕ, List, IfOk};
ghost use Rattle.message_types.specs.declared.signed.Signed.{Signed as SignedWord};
ghost use Rattle.message_types.specs.declared.body.Body.{Body as Word};
ghost use Rattle.protocol_rules.specs.declared.facts.OrderFact.{OrderFact as Fact};
ghost use Rattle.protocol_rules.specs.Group.{Group};
ghost use Rattle.protocol_rules.specs.Order as rules;
ghost use Rattle.protocol_rules.specs.Views.{report_due, new_view_due};
ghost use Rattle.global_order.specs.OrderState.{IsOrderOf};
ghost use Rattle.view_change.specs.ViewState.{AreViewsOf, Says};

use global_order::Order;
use message_types::Body;
use plain_lists::Want;
use view_change::Views;

/// The report and the new view due in the present view `view`, with the marks and certificates known. They count as said
/// from then on.
pub(crate) fn say_views(views: &mut Views, order: &Order, view: u64) -> Result<Vec<Body>, Want>
    ensures words { IfOk result (λ words. (g : Group) (me : ℕ) (known : List (SignedWord Word)) (facts : List Fact) (ordered said : List Word)
        → IsOrderOf g order.now facts ordered → AreViewsOf g me views.old known said
        → words.items ≡ report_due g known said (rules.stable g facts) (rules.marks_for g facts (rules.stable g facts)) (rules.certificates_below g facts view)
        ++ new_view_due g me known said) }
    ensures said { IfOk result (λ words. Says views.old views.new words.items) }
{
    if !views.owes_report() {
        return views.due(0, &[], &[]);
    }
    let marks = order.marks()?;
    let certificates = order.certificates(view)?;
    views.due(order.stable(), &marks, &certificates)
}
