ghost use Rattle.std.specs.Prelude.{◌≡◌, ℕ, List, false, filter};
ghost use Rattle.message_types.specs.declared.signed.Signed.{Signed};
ghost use Rattle.message_types.specs.declared.body.Body.{Body};
ghost use Rattle.protocol_rules.specs.Group.{Group};
ghost use Rattle.protocol_rules.specs.Matrix.{latest};
ghost use Rattle.summary_matrix.specs.Held.{Summaries, IsMatrixOf, Learns, is_summary};

/// A law, which does nothing: a master's latest summary among words is that among the summaries of them. So the
/// matrix that took the summaries that its master knows, in their order, is the matrix of all that it knows, and
/// a word of another kind changes nothing.
pub fn only_summaries_count()
    ensures latest { (known : List (Signed Body)) (j : ℕ) → latest (filter is_summary known) j ≡ latest known j }
    ensures matrix { (g : Group) (m : Summaries) (known : List (Signed Body)) → IsMatrixOf g m (filter is_summary known) → IsMatrixOf g m known }
    ensures others { (m : Summaries) (f : Signed Body) → is_summary f ≡ false → Learns m m f }
{}
