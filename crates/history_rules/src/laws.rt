ghost use Rattle.std.specs.Prelude.{◌≡◌};
ghost use Rattle.history_rules.specs.declared.limits.TheConstants.{MOST_SHARING};

/// How many bodies may share a leaf, as a number: the code and the definitions both cite the constant.
pub fn limits()
    ensures most_sharing { MOST_SHARING ≡ 32 }
{}
