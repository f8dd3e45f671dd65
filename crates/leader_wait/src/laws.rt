ghost use Rattle.std.specs.Prelude.{ℕ, List};
ghost use Rattle.protocol_rules.specs.Group.{Group};
ghost use Rattle.protocol_rules.specs.Patience.{Moment};
ghost use Rattle.leader_wait.specs.Waiting.{Waiting, IsWaitOf, Rises};

/// A law, which does nothing: as long as what is ordered only rises, the wait of these moments stays that, unasked.
pub fn more_may_be_ordered()
    ensures { (g : Group) (kept : Waiting) (ordered later : ℕ → ℕ) (moments : List Moment) → Rises g.n ordered later
        → IsWaitOf g kept ordered moments → IsWaitOf g kept later moments }
{}
