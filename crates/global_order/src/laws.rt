ghost use Rattle.std.specs.Prelude.{◌≡◌, ◌++◌, ◌∷◌, ◌&&◌, [], ℕ, List, not, if◌then◌else◌};
ghost use Rattle.std.specs.List.{list_any};
ghost use Rattle.message_types.specs.declared.signed.Signed.{Signed};
ghost use Rattle.message_types.specs.declared.body.Body.{Body};
ghost use Rattle.protocol_rules.specs.Group.{Group};
ghost use Rattle.protocol_rules.specs.declared.facts.OrderFact.{OrderFact as Fact};
ghost use Rattle.protocol_rules.specs.Facts.{tells, facts_of};
ghost use Rattle.protocol_rules.specs.Reconcile.{asks_for_order, give_ordered_due, orders_given};
ghost use Rattle.global_order.specs.Giving.{given_order, gift_words};
ghost use Rattle.global_order.specs.OrderState.{OrderState, IsOrderOf, Learns};

/// A law, which does nothing: the facts that words tell are those of each word in turn. So an order that was handed
/// what each word tells, as its master came to know it, is the order of all that the master knows, and each of its
/// answers is the definition over these; a word that tells nothing changes nothing.
pub fn only_facts_count()
    ensures nothing { (g : Group) (order : OrderState) (said : List Body) → IsOrderOf g order [] said → IsOrderOf g order (facts_of g []) said }
    ensures word { (g : Group) (before after : OrderState) (known : List (Signed Body)) (said : List Body) (f : Signed Body) → Learns before after (tells g f)
        → IsOrderOf g before (facts_of g known) said → IsOrderOf g after (facts_of g (known ++ f ∷ [])) said }
    ensures words { (g : Group) (known more : List (Signed Body)) → facts_of g (known ++ more) ≡ facts_of g known ++ facts_of g more }
    ensures other { (g : Group) (order : OrderState) (known : List (Signed Body)) (said : List Body) (f : Signed Body) → tells g f ≡ []
        → IsOrderOf g order (facts_of g known) said → IsOrderOf g order (facts_of g (known ++ f ∷ [])) said }
{}

/// A law, which does nothing: where another master asked for a number and it wasn't given, what is due for it is the whole
/// order that `Order::given` answers, and else nothing is.
pub fn a_whole_order_is_due_once()
    ensures { (g : Group) (me : ℕ) (known : List (Signed Body)) (facts : List Fact) (said : List Body) (s : ℕ) → give_ordered_due g me known facts said s
        ≡ (if list_any (asks_for_order me s) known && not (list_any (orders_given s) said) then gift_words (given_order g facts s) else []) }
{}
