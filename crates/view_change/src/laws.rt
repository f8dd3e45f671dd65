ghost use Rattle.std.specs.Prelude.{◌≡◌, ◌≢◌, ◌≤◌, ℕ, List, Some, false, filter, IsTrue, map};
ghost use Rattle.std.specs.List.{list_all, list_any};
ghost use Rattle.std.specs.Option.{option_map};
ghost use Rattle.message_types.specs.declared.signed.Signed.{Signed};
ghost use Rattle.message_types.specs.declared.views.NewView.{NewView};
ghost use Rattle.message_types.specs.declared.body.Body.{Body};
ghost use Rattle.message_types.specs.declared.body.Body.TheVariants as body;
ghost use Rattle.message_types.specs.Parts.{as_frame, parts};
ghost use Rattle.protocol_rules.specs.Group.{Group};
ghost use Rattle.protocol_rules.specs.Places.{in_place};
ghost use Rattle.protocol_rules.specs.Plans.{first_plan};
ghost use Rattle.protocol_rules.specs.Facts.{facts_of};
ghost use Rattle.protocol_rules.specs.Order.{plan_known};
ghost use Rattle.protocol_rules.specs.Views.{reports_said, new_views_said};
ghost use Rattle.view_change.specs.Planning.{are_spelled};
ghost use Rattle.view_change.specs.ViewState.{ViewState, AreViewsOf, Learns, first_new_view, plan_in_new_view, is_view_word};

use quorum_sets::MOST_MASTERS;

/// A law, which does nothing: only suspicions, reports and new views count among the words known. So views that
/// took those that their master knows, in their order, are the views of all that it knows, and a word of another
/// kind changes nothing.
pub fn only_view_words_count()
    ensures views { (g : Group) (me : ℕ) (kept : ViewState) (known : List (Signed Body)) (said : List Body)
        → AreViewsOf g me kept (filter is_view_word known) said → AreViewsOf g me kept known said }
    ensures others { (kept : ViewState) (f : Signed Body) → is_view_word f ≡ false → Learns kept kept f }
{}

/// A law, which does nothing: of what was said only matters of which views a report and a new view is in it, and
/// neither their order nor anything else. So the bodies of other crates may stand between.
pub fn only_reports_and_new_views_said_count()
    ensures { (g : Group) (me : ℕ) (kept : ViewState) (known : List (Signed Body)) (said other : List Body)
        → ((v : ℕ) → list_any (reports_said v) other ≡ list_any (reports_said v) said)
        → ((v : ℕ) → list_any (new_views_said v) other ≡ list_any (new_views_said v) said)
        → AreViewsOf g me kept known said → AreViewsOf g me kept known other }
{}

/// A law, which does nothing: the plan that the global order knows of a view is that of the first new view known
/// of it, and that of view 0 is empty.
pub fn first_new_view_has_the_plan()
    ensures first { (g : Group) (known : List (Signed Body)) → plan_known (facts_of g known) 0 ≡ Some first_plan }
    ensures later { (g : Group) (known : List (Signed Body)) (v : ℕ) → v ≢ 0
        → plan_known (facts_of g known) v ≡ option_map (plan_in_new_view g) (first_new_view known v) }
{}

/// A law, which does nothing: the rows that a new view brings have digests where it and all its parts are in
/// their places, as in each frame that stands. So each new view that a master knows can be taken.
pub fn new_views_in_place_can_be_taken()
    ensures { (g : Group) (f : Signed NewView) → g.n ≤ MOST_MASTERS → IsTrue (list_all (in_place g) (parts (as_frame body.NewView f)))
        → IsTrue (are_spelled (map (λ r. r.body) f.body.reports)) }
{}
