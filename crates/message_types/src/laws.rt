ghost use Rattle.std.specs.Prelude.{◌≡◌, ◌^◌};
ghost use Rattle.message_types.specs.declared.limits.TheConstants.{MOST_LISTED, MOST_CERTIFICATES};
ghost use Rattle.message_types.specs.declared.limits.TheConstants.{MOST_SIGNATURE_BYTES, MOST_BODY_BYTES};

/// What the limits of spellings are, as numbers: the code and the definitions both cite the constants.
pub fn limits()
    ensures most_listed { MOST_LISTED ≡ 14 }
    ensures most_certificates { MOST_CERTIFICATES ≡ 16 }
    ensures most_signature_bytes { MOST_SIGNATURE_BYTES ≡ 65536 }
    ensures most_body_bytes { MOST_BODY_BYTES ≡ 2 ^ 30 }
{}
