ghost use Rattle.std.specs.Prelude.{[], IsTrue, ◌≡◌, ◌≢◌, ◌≤◌, ◌<◌, ◌++◌, ℕ, List, length, slice_index, slice_set};
ghost use Rattle.std.specs.List.{filter_map, flat_map, list_all, list_any};
ghost use Rattle.message_types.specs.declared.signed.Signed.{Signed};
ghost use Rattle.message_types.specs.declared.body.Body.{Body};
ghost use Rattle.message_types.specs.declared.vouchers.Order.{Order};
ghost use Rattle.message_types.specs.Parts.{parts};
ghost use Rattle.quorum_sets.specs.Masters.{numbers_below};
ghost use Rattle.protocol_rules.specs.declared.facts.OrderFact.{OrderFact};
ghost use Rattle.protocol_rules.specs.Group.{Group};
ghost use Rattle.protocol_rules.specs.Places.{in_place};
ghost use Rattle.protocol_rules.specs.Facts.{facts_of};
ghost use Rattle.protocol_rules.specs.Master.{offered_number, summary_in, vouchers_said, vouchers_from};
ghost use Rattle.leader_proposals.specs.Counting.{HasFewRows};
ghost use Rattle.leader_proposals.specs.Offering.{Offered, AreOffersOf, Learns};
ghost use Rattle.leader_proposals.specs.Saying.{SummedUp, IsSummaryOf, AreVouchersOf};

use quorum_sets::{MOST_CLIENTS, MOST_MASTERS};

/// A law, which does nothing: what was offered stays so as more facts become known.
pub fn facts_may_grow()
    ensures { (kept : Offered) (more : List OrderFact) → Learns kept kept more }
{}

/// A law, which does nothing: where all rows known are few, they stay so with each frame whose parts are in their place,
/// as those of a frame that stands are.
pub fn rows_stay_few()
    ensures nothing { (g : Group) → HasFewRows (facts_of g []) }
    ensures frame { (g : Group) (known : List (Signed Body)) (f : Signed Body) → g.n ≤ MOST_MASTERS → IsTrue (list_all (in_place g) (parts f))
        → HasFewRows (facts_of g known) → HasFewRows (facts_of g (known ++ parts f)) }
{}

/// A law, which does nothing: of what was said only the numbers offered, the summaries and the vouchers matter, each to
/// what keeps them. So words of other kinds may stand between.
pub fn only_own_kinds_count()
    ensures offers { (g : Group) (kept : Offered) (facts : List OrderFact) (said other : List Body)
        → ((v : ℕ) → filter_map (offered_number v) other ≡ filter_map (offered_number v) said)
        → AreOffersOf g kept facts said → AreOffersOf g kept facts other }
    ensures summaries { (g : Group) (kept : SummedUp) (said other : List Body)
        → filter_map summary_in other ≡ filter_map summary_in said → IsSummaryOf g kept said → IsSummaryOf g kept other }
    ensures vouchers { (counts : List ℕ) (said other : List Body)
        → ((c x : ℕ) → c < MOST_CLIENTS → list_any (vouchers_said c x) other ≡ list_any (vouchers_said c x) said)
        → AreVouchersOf counts said → AreVouchersOf counts other }
{}

/// A law, which does nothing: the vouchers due for a client are the same after those for the clients before it. So the
/// clients may be asked for one after another.
pub fn clients_stand_apart()
    ensures { (said : List Body) (orders : ℕ → List Order) (c : ℕ)
        → vouchers_from (said ++ flat_map (λ d. vouchers_from said d 1 (orders d)) (numbers_below c)) c 1 (orders c) ≡ vouchers_from said c 1 (orders c) }
{}

/// A law, which does nothing: once a client's orders are vouched for, that list with more orders at its end may be
/// given next; and the counts of other clients stay.
pub fn orders_may_grow()
    ensures more { (counts : List ℕ) (c : ℕ) (orders more : List Order) → c < length counts
        → slice_index (slice_set counts c (length orders)) c ≤ length (orders ++ more) }
    ensures others { (counts : List ℕ) (c d : ℕ) (orders : List Order) → c ≢ d
        → slice_index (slice_set counts c (length orders)) d ≡ slice_index counts d }
{}
