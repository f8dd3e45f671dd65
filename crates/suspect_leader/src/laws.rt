ghost use Rattle.std.specs.Prelude.{◌≡◌, ℕ, List, filter};
ghost use Rattle.std.specs.List.{list_any};
ghost use Rattle.message_types.specs.declared.signed.Signed.{Signed};
ghost use Rattle.message_types.specs.declared.body.Body.{Body};
ghost use Rattle.protocol_rules.specs.Group.{Group};
ghost use Rattle.protocol_rules.specs.Measures.{Told};
ghost use Rattle.suspect_leader.specs.declared.saying.Saying.{Saying};
ghost use Rattle.suspect_leader.specs.Sayings.{is_measure, says};
ghost use Rattle.suspect_leader.specs.MeasureState.{MeasureState, IsMeasureOf};

/// A law, which does nothing: only pings, pongs, round trips, tatreports and tatbounds count among the words
/// known. So measures that take those that their master knows, in their order, are the measures of all that it
/// knows.
pub fn only_measures_count()
    ensures { (g : Group) (me : ℕ) (kept : MeasureState) (told : List Told) (known : List (Signed Body)) (said : List Body)
        → IsMeasureOf g me kept told (filter is_measure known) said → IsMeasureOf g me kept told known said }
{}

/// A law, which does nothing: of what was said only matters which bodies of this crate's kinds are in it. So the
/// bodies of other crates may stand between.
pub fn only_own_kinds_count()
    ensures { (g : Group) (me : ℕ) (kept : MeasureState) (told : List Told) (known : List (Signed Body)) (said other : List Body)
        → ((s : Saying) → list_any (says s) other ≡ list_any (says s) said)
        → IsMeasureOf g me kept told known said → IsMeasureOf g me kept told known other }
{}
