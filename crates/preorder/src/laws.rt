ghost use Rattle.std.specs.Prelude.{◌≡◌, ℕ, List, filter};
ghost use Rattle.message_types.specs.declared.signed.Signed.{Signed};
ghost use Rattle.message_types.specs.declared.body.Body.{Body};
ghost use Rattle.protocol_rules.specs.Group.{Group};
ghost use Rattle.preorder.specs.Composed.{is_preordering, is_preordering_word, is_update};
ghost use Rattle.preorder.specs.PreorderState.{PreorderState, IsPreorderOf};

/// A law, which does nothing: of the words known and the bodies said only requests and acknowledgements count, and of
/// the frames taken only updates. So a pre-ordering that takes these, in their order, is that of all its master knows.
pub fn only_requests_count()
    ensures taken { (g : Group) (me : ℕ) (p : PreorderState) (taken other known : List (Signed Body)) (said : List Body)
        → filter is_update taken ≡ filter is_update other → IsPreorderOf g me p taken known said → IsPreorderOf g me p other known said }
    ensures known { (g : Group) (me : ℕ) (p : PreorderState) (taken known other : List (Signed Body)) (said : List Body)
        → filter is_preordering known ≡ filter is_preordering other → IsPreorderOf g me p taken known said → IsPreorderOf g me p taken other said }
    ensures said { (g : Group) (me : ℕ) (p : PreorderState) (taken known : List (Signed Body)) (said other : List Body)
        → filter is_preordering_word said ≡ filter is_preordering_word other → IsPreorderOf g me p taken known said → IsPreorderOf g me p taken known other }
{}
