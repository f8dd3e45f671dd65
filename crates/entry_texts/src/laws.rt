//! What holds of all entries and all bytes. Each function does nothing: its contract is a law.
ghost use Rattle.std.specs.Prelude.{◌≡◌, ◌++◌, ℕ, List};
ghost use Rattle.history_rules.specs.Events.{Event};
ghost use Rattle.entry_texts.specs.Texts.{entry_text};
ghost use Rattle.entry_texts.specs.Fits.{FitsEntry};

/// No entry's bytes begin with those of another one. So an entry that was written is read again, whatever follows it,
/// and no two differ in stamp or event and have the same bytes.
pub fn one_text()
    ensures { (first second : ℕ) (a b : Event) (xs ys : List ℕ) → FitsEntry first a → FitsEntry second b
        → entry_text first a ++ xs ≡ entry_text second b ++ ys → (first ≡ second) × (a ≡ b) × (xs ≡ ys) }
{}
