ghost use Rattle.std.specs.Prelude.{◌≡◌, ◌≤◌, ℕ, List, filter, length, map, take, false};
ghost use Rattle.std.specs.List.{list_any, flat_map};
ghost use Rattle.message_types.specs.declared.signed.Signed.{Signed};
ghost use Rattle.message_types.specs.declared.body.Body.{Body};
ghost use Rattle.message_types.specs.declared.body.Body.TheVariants as body;
ghost use Rattle.protocol_rules.specs.Group.{Group};
ghost use Rattle.protocol_rules.specs.declared.limits.TheConstants.{MOST_NUMBERS_ASKED, MOST_REQUESTS_ASKED};
ghost use Rattle.reconcile.specs.declared.wanted.Wanted.{Wanted};
ghost use Rattle.reconcile.specs.declared.wanted.Wanted.TheVariants.{Request, Number};
ghost use Rattle.reconcile.specs.Asking.{is_ask, asks, gives};
ghost use Rattle.reconcile.specs.AskState.{AskState, AreAsksOf, IsListOfWanted};
ghost use Rattle.protocol_rules.specs.declared.facts.OrderFact.{OrderFact};
ghost use Rattle.protocol_rules.specs.Execution.{Request as Eligible};
ghost use Rattle.protocol_rules.specs.Reconcile.{gives_due, gives_ordered_due, updates_asked, orders_asked};
ghost use Rattle.protocol_rules.specs.Lacking.{may_ask};
ghost use Rattle.reconcile.specs.Again.{asks_again_due};
ghost use Rattle.preorder.specs.Composed.{is_preordering};
ghost use Rattle.reconcile.specs.GiftState.{GiftState, AreGiftsOf, Learns};
ghost use Rattle.reconcile.specs.Giving.{give_of, order_given, requests_in, numbers_in};

/// A law, which does nothing: only asks count among the words known. So asks that take those that their
/// master knows, in their order, are the asks of all that it knows.
pub fn only_asks_count()
    ensures { (g : Group) (me : ℕ) (kept : AskState) (known : List (Signed Body)) (said : List Body)
        → AreAsksOf g me kept (filter is_ask known) said → AreAsksOf g me kept known said }
{}

/// A law, which does nothing: of what was said only matters which asks and which gifts are in it, and neither
/// their order nor anything else. So the bodies of other crates may stand between.
pub fn only_asks_and_gifts_count()
    ensures { (g : Group) (me : ℕ) (kept : AskState) (known : List (Signed Body)) (said other : List Body)
        → ((w : Wanted) → list_any (asks w) other ≡ list_any (asks w) said)
        → ((w : Wanted) → list_any (gives w) other ≡ list_any (gives w) said)
        → AreAsksOf g me kept known said → AreAsksOf g me kept known other }
{}

/// A law, which does nothing: only requests and acknowledgements count among the words known. So gifts that
/// take those that their master knows, in their order, are the gifts of all that it knows, and a word of another
/// kind changes nothing.
pub fn only_requests_and_acks_count()
    ensures gifts { (g : Group) (kept : GiftState) (known : List (Signed Body)) → AreGiftsOf g kept (filter is_preordering known) → AreGiftsOf g kept known }
    ensures others { (kept : GiftState) (f : Signed Body) → is_preordering f ≡ false → Learns kept kept f }
{}

/// A law, which does nothing: the gifts due are those of what is wanted, in order. So nobody looks through all
/// numbers that there may be.
pub fn what_is_wanted_is_given()
    ensures requests { (g : Group) (me : ℕ) (known : List (Signed Body)) (said : List Body) (list : List Wanted) → IsListOfWanted g me known said list
        → gives_due g me known said ≡ flat_map (λ r. give_of g known r.j r.k) (requests_in list) }
    ensures numbers { (g : Group) (me : ℕ) (known : List (Signed Body)) (facts : List OrderFact) (said : List Body) (list : List Wanted) → IsListOfWanted g me known said list
        → gives_ordered_due g me known facts said ≡ flat_map (order_given g facts) (numbers_in list) }
{}

/// A law, which does nothing: of what was said only matters which gifts are in it.
pub fn only_gifts_said_count()
    ensures requests { (g : Group) (me : ℕ) (known : List (Signed Body)) (said other : List Body)
        → ((w : Wanted) → list_any (gives w) other ≡ list_any (gives w) said) → gives_due g me known other ≡ gives_due g me known said }
    ensures numbers { (g : Group) (me : ℕ) (known : List (Signed Body)) (facts : List OrderFact) (said other : List Body)
        → ((w : Wanted) → list_any (gives w) other ≡ list_any (gives w) said) → gives_ordered_due g me known facts other ≡ gives_ordered_due g me known facts said }
    ensures wanted { (g : Group) (me : ℕ) (known : List (Signed Body)) (said other : List Body) (list : List Wanted)
        → ((w : Wanted) → list_any (gives w) other ≡ list_any (gives w) said) → IsListOfWanted g me known said list → IsListOfWanted g me known other list }
{}

/// A law, which does nothing: what is asked for again is what the rules that stay alive ask for, where the lists are those of
/// what is lacking.
pub fn what_is_lacking_is_asked_for()
    ensures numbers { (said : List Body) (now : ℕ) (numbers : List ℕ) → length numbers ≤ MOST_NUMBERS_ASKED
        → asks_again_due said now (map Number numbers) MOST_NUMBERS_ASKED ≡ map (λ s. body.AskOrder record { s = s }) (filter (λ s. may_ask said now (orders_asked s)) numbers) }
    ensures requests { (said : List Body) (now : ℕ) (requests : List Eligible)
        → asks_again_due said now (map (λ r. Request r.j r.k) requests) MOST_REQUESTS_ASKED
        ≡ map (λ r. body.AskUpdate record { j = r.j; k = r.k }) (take MOST_REQUESTS_ASKED (filter (λ r. may_ask said now (updates_asked r.j r.k)) requests)) }
{}
