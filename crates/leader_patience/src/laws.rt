ghost use Rattle.std.specs.Prelude.{List, filter};
ghost use Rattle.message_types.specs.declared.signed.Signed.{Signed};
ghost use Rattle.message_types.specs.declared.body.Body.{Body};
ghost use Rattle.protocol_rules.specs.Group.{Group};
ghost use Rattle.leader_patience.specs.PatienceState.{PatienceState, IsPatienceOf, is_vote, is_known_vote};

/// A law, which does nothing: only votes count among the words known. So a patience that takes those that its master
/// knows, in their order, is the patience over all that it knows.
pub fn only_votes_known_count()
    ensures { (g : Group) (kept : PatienceState) (known : List (Signed Body)) (said : List Body)
        → IsPatienceOf g kept (filter is_known_vote known) said → IsPatienceOf g kept known said }
{}

/// A law, which does nothing: only votes count among the bodies said. So bodies of other crates may stand between.
pub fn only_votes_said_count()
    ensures { (g : Group) (kept : PatienceState) (known : List (Signed Body)) (said : List Body)
        → IsPatienceOf g kept known (filter is_vote said) → IsPatienceOf g kept known said }
{}
