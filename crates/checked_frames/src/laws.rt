//! What holds of all keys, texts, frames and histories. Each function does nothing: its contract is a law.
ghost use Rattle.std.specs.Prelude.{◌≡◌, ◌↔◌, ◌<◌, ◌≤◌, ◌+◌, ◌/◌, ◌%◌, ℕ, Bool, List, [], None, length, IsTrue};
ghost use Rattle.std.specs.List.{slice_index_or};
ghost use Rattle.message_types.specs.declared.signed.Signed.{Signed};
ghost use Rattle.message_types.specs.declared.body.Body.{Body};
ghost use Rattle.message_types.specs.Spelling.{has_spelling};
ghost use Rattle.hash_signatures.specs.Signatures.{Key};
ghost use Rattle.hash_signatures.specs.Verification.{Verifies};
ghost use Rattle.history_rules.specs.Setup.{Setup};
ghost use Rattle.history_rules.specs.Setup.{stands as history_stands};
ghost use Rattle.checked_frames.specs.Verifying.{verifies};
ghost use Rattle.checked_frames.specs.Signing.{signs, signed_message, field_at, group_signatures};
ghost use Rattle.checked_frames.specs.Entries.{group_size, group_at, entry_signatures};
ghost use Rattle.checked_frames.specs.Standing.{Ring, actors, public_of, stands, first_fault, PartsStand};

use history_rules::MOST_SHARING;

/// The test of HSS signatures that the definitions here name is true exactly where the relation of RFC 8554, section
/// 6.3, holds.
pub fn test_of_signatures()
    ensures { (public message sig : List ℕ) → IsTrue (verifies public message sig) ↔ Verifies public message sig }
{}

/// Whatever signs the message of 1 to `MOST_SHARING` texts, the field made of it for each of them signs that text: each path
/// leads to the root.
pub fn groups_sign()
    ensures { (public : List ℕ) (texts : List (List ℕ)) (signed : List ℕ) (place : ℕ)
        → length texts ≤ MOST_SHARING → place < length texts → Verifies public (signed_message texts) signed
        → IsTrue (signs public (slice_index_or texts place []) (field_at texts signed place)) }
{}

/// The signature of the body at a place of an entry is that of its group, at its place inside the group.
pub fn entry_by_place()
    ensures { (key : Key) (used : ℕ) (shared : Bool) (texts : List (List ℕ)) (place : ℕ) → place < length texts
        → slice_index_or (entry_signatures key used (group_size shared) texts) place []
        ≡ slice_index_or (group_signatures key (used + place / group_size shared)
        (group_at (group_size shared) texts (place / group_size shared))) (place % group_size shared) [] }
{}

/// A frame stands exactly where it has a spelling and no part of it has a fault.
pub fn faultless_frames_stand()
    ensures { (ring : Ring) (frame : Signed Body)
        → IsTrue (stands ring frame) ↔ (IsTrue (has_spelling frame) × (first_fault ring frame ≡ None)) }
{}

/// Where a frame stands in a ring, each part of it does: it is of an actor that is there, signed by it, and in its place.
pub fn parts_stand()
    ensures { (ring : Ring) (frame : Signed Body) → PartsStand ring frame }
{}

/// In a history whose group is the ring's, and whose actors' keys bear out the signatures that the ring's keys do, the
/// same frames stand.
pub fn the_same_stand_in_histories()
    ensures { (w : Setup) (ring : Ring) → w.group ≡ ring.group
        → ((actor : ℕ) (text sig : List ℕ) → actor < actors ring.group
        → w.signs actor text sig ≡ signs (public_of ring actor) text sig)
        → (frame : Signed Body) → history_stands w frame ≡ stands ring frame }
{}
