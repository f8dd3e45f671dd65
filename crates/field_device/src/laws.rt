ghost use Rattle.std.specs.Prelude.{◌≡◌};
ghost use Rattle.field_device.specs.declared.limits.TheConstants.{MOST_BITS_READ, MOST_REGISTERS_READ};
ghost use Rattle.field_device.specs.declared.limits.TheConstants.{MOST_COILS_WRITTEN, MOST_REGISTERS_WRITTEN};

/// For how many places a request may ask, in numbers (V1.1b3, sections 6.1 to 6.4, 6.11 and 6.12): the code and the
/// definitions both cite the constants.
pub fn limits()
    ensures most_bits_read { MOST_BITS_READ ≡ 2000 }
    ensures most_registers_read { MOST_REGISTERS_READ ≡ 125 }
    ensures most_coils_written { MOST_COILS_WRITTEN ≡ 1968 }
    ensures most_registers_written { MOST_REGISTERS_WRITTEN ≡ 123 }
{}
