//! What holds of all frames and all bytes.
ghost use Rattle.std.specs.Prelude.{◌≡◌, ◌↔◌, ◌++◌, ℕ, List, IsTrue};
ghost use Rattle.message_types.specs.declared.signed.Signed.{Signed};
ghost use Rattle.message_types.specs.declared.body.Body.{Body};
ghost use Rattle.message_types.specs.Texts.{frame_text};
ghost use Rattle.message_types.specs.Spelling.{has_spelling};
ghost use Rattle.message_forms.specs.Widths.{FitsFields, IsBytes};
ghost use Rattle.message_forms.specs.Forms.{first_fault};

/// No spelling is a prefix of another frame's. So a frame that was written is read again, whatever follows it, and no
/// two frames have one spelling.
pub fn one_spelling()
    ensures { (f g : Signed Body) (xs ys : List ℕ) → FitsFields f → FitsFields g
        → IsTrue (has_spelling f) → IsTrue (has_spelling g)
        → frame_text f ++ xs ≡ frame_text g ++ ys → (f ≡ g) × (xs ≡ ys) }
{}

/// Bytes have no fault exactly where some frame is spelled so.
pub fn faultless()
    ensures { (bytes : List ℕ) → IsBytes bytes
        → (first_fault bytes ≡ None)
        ↔ ((f : Signed Body) × FitsFields f × IsTrue (has_spelling f) × (bytes ≡ frame_text f)) }
{}
