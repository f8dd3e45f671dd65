//! What holds of an intruded master's entries.
ghost use Rattle.std.specs.Prelude.{◌≡◌, ◌++◌, ◌∷◌, ℕ, List, [], None};
ghost use Rattle.std.specs.List.{flat_map};
ghost use Rattle.message_types.specs.declared.signed.Signed.{Signed};
ghost use Rattle.message_types.specs.declared.body.Body.{Body};
ghost use Rattle.message_types.specs.Parts.{parts};
ghost use Rattle.protocol_rules.specs.Master.{taken_frames};
ghost use Rattle.history_rules.specs.Events.{Entry, Took, Cry, frame_taken};
ghost use Rattle.world_rules.specs.Frames.{cried, overheard};

/// A law, which does nothing: what an entry teaches an intruded master is the frame that it took or cried, and the parts
/// of that.
pub fn entries_teach()
    ensures all { (own : List Entry) (e : Entry) → overheard (own ++ e ∷ []) ≡ overheard own ++ flat_map parts (taken_frames (frame_taken e.event) ++ cried e.event) }
    ensures took { (own : List Entry) (e : Entry) (stamp place : ℕ) (f : Signed Body) → e.event ≡ Took stamp place f → overheard (own ++ e ∷ []) ≡ overheard own ++ parts f }
    ensures own_cry { (own : List Entry) (e : Entry) (bytes : List ℕ) → e.event ≡ Cry bytes → overheard (own ++ e ∷ []) ≡ overheard own ++ flat_map parts (cried (Cry bytes)) }
    ensures others { (own : List Entry) (e : Entry) → frame_taken e.event ≡ None → cried e.event ≡ [] → overheard (own ++ e ∷ []) ≡ overheard own }
{}
