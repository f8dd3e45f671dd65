ghost use Rattle.std.specs.Prelude.{◌≡◌, ◌^◌, ◌+◌};
ghost use Rattle.protocol_rules.specs.declared.limits.TheConstants.{MOST_NUMBER, WINDOW, MARK_STEP, MOST_VIEW};
ghost use Rattle.protocol_rules.specs.declared.limits.TheConstants.{MOST_TICKS, MOST_BOUND, BEAT, SLOW_BEAT};
ghost use Rattle.protocol_rules.specs.declared.limits.TheConstants.{FIRST_PATIENCE, MOST_DOUBLINGS, FORGIVEN_STEP};
ghost use Rattle.protocol_rules.specs.declared.limits.TheConstants.{LONG_WAIT, BLIND_STEP, SHOWN_STEP};
ghost use Rattle.protocol_rules.specs.declared.limits.TheConstants.{MOST_NUMBERS_ASKED, MOST_REQUESTS_ASKED};
ghost use Rattle.protocol_rules.specs.declared.limits.TheConstants.{FIRST_SHARE, SHARE_STEP, SHARE_OF_EACH};

/// What the limits of the rules are, as numbers: the code and the definitions both cite the constants.
pub fn limits()
    ensures most_number { MOST_NUMBER ≡ 4096 }
    ensures window { WINDOW ≡ 16 }
    ensures mark_step { MARK_STEP ≡ 8 }
    ensures most_view { MOST_VIEW ≡ 255 }
    ensures most_ticks { MOST_TICKS ≡ 2 ^ 32 }
    ensures most_bound { MOST_BOUND ≡ 2 ^ 33 + 4 }
{}

/// What those of the rules that stay alive are.
pub fn live_limits()
    ensures beat { BEAT ≡ 16 }
    ensures slow_beat { SLOW_BEAT ≡ 32 }
    ensures first_patience { FIRST_PATIENCE ≡ 32 }
    ensures most_doublings { MOST_DOUBLINGS ≡ 16 }
    ensures forgiven_step { FORGIVEN_STEP ≡ 1024 }
    ensures long_wait { LONG_WAIT ≡ 16 }
    ensures blind_step { BLIND_STEP ≡ 128 }
    ensures shown_step { SHOWN_STEP ≡ 4 }
    ensures most_numbers_asked { MOST_NUMBERS_ASKED ≡ 64 }
    ensures most_requests_asked { MOST_REQUESTS_ASKED ≡ 16 }
    ensures first_share { FIRST_SHARE ≡ 64 }
    ensures share_step { SHARE_STEP ≡ 4 }
    ensures share_of_each { SHARE_OF_EACH ≡ 4 }
{}
