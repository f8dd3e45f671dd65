ghost use Rattle.std.specs.Prelude.{◌≡◌};
ghost use Rattle.parity_parts.specs.declared.limits.TheConstants.{MOST_TEXT_BYTES};

/// How long a text may be, as a number: the code and the definitions both cite the constant.
pub fn limits()
    ensures most_text_bytes { MOST_TEXT_BYTES ≡ 65536 }
{}
