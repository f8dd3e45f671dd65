//! Pieces of a text.
ghost use Rattle.std.specs.Prelude.{◌≡◌, ◌++◌, ℕ, List, take, drop};
ghost use Rattle.std.specs.Option.{MatchOption};

/// So many bytes of a text from a place on, or as many as there are.
pub(crate) fn piece(text: &[u8], place: usize, count: usize) -> &[u8]
    ensures { result.now ≡ take count (drop place text.now) }
{
    if place > text.len() {
        return &[];
    }
    let (_, rest) = text.split_at(place);
    if count > rest.len() {
        return rest;
    }
    let (front, _) = rest.split_at(count);
    front
}

/// What follows in a text that begins so.
pub(crate) fn behind<'a>(text: &'a [u8], beginning: &[u8]) -> Option<&'a [u8]>
    ensures { MatchOption result ((rest : List ℕ) → text.now ≡ beginning.now ++ rest → ⊥) (λ rest. text.now ≡ beginning.now ++ rest.now) }
{
    if beginning.len() > text.len() {
        return None;
    }
    let (front, rest) = text.split_at(beginning.len());
    if front == beginning { Some(rest) } else { None }
}
