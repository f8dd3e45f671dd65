ghost use Rattle.std.specs.Prelude.{◌≡◌, ◌-◌, ◌^◌};
ghost use Rattle.command_ends.specs.declared.limits.TheConstants.{MOST_BYTES, MOST_KEPT_BYTES};

/// How many bytes files may have, as numbers: the code and the definitions both cite the constants.
pub fn limits()
    ensures most_bytes { MOST_BYTES ≡ 2 ^ 24 }
    ensures most_kept_bytes { MOST_KEPT_BYTES ≡ 2 ^ 32 - 1 }
{}
