ghost use Rattle.std.specs.Prelude.{◌≡◌, MatchOption};
ghost use Rattle.ots_keys.specs.declared.parameters.Ots.{Ots};
ghost use Rattle.ots_keys.specs.Parameters.{type_code, width, chains, checksum_shift, top_digit, signature_len};

/// A parameter set of RFC 8554, section 4.1: digits of 1, 2, 4 or 8 bits.
#[derive(Clone, Copy, PartialEq, Eq)]
pub enum Ots {
    W1,
    W2,
    W4,
    W8,
}

impl Ots {
    /// The type code of table 1.
    pub fn type_code(self) -> u32
        ensures { result ≡ type_code self }
    {
        match self {
            Ots::W1 => 1,
            Ots::W2 => 2,
            Ots::W4 => 3,
            Ots::W8 => 4,
        }
    }

    /// The parameter set that has this type code, if one has.
    pub fn from_type_code(code: u32) -> Option<Ots>
        ensures { MatchOption result ((ots : Ots) → type_code ots ≡ code → ⊥) (λ ots. type_code ots ≡ code) }
    {
        match code {
            1 => Some(Ots::W1),
            2 => Some(Ots::W2),
            3 => Some(Ots::W4),
            4 => Some(Ots::W8),
            _ => None,
        }
    }

    /// The bytes of a signature.
    pub fn signature_len(self) -> usize
        ensures { result ≡ signature_len self }
    {
        4 + 32 * (self.chains() as usize + 1)
    }

    /// The bits of a digit.
    pub fn width(self) -> usize
        ensures { result ≡ width self }
    {
        match self {
            Ots::W1 => 1,
            Ots::W2 => 2,
            Ots::W4 => 4,
            Ots::W8 => 8,
        }
    }

    /// The number of chains.
    pub fn chains(self) -> u16
        ensures { result ≡ chains self }
    {
        match self {
            Ots::W1 => 265,
            Ots::W2 => 133,
            Ots::W4 => 67,
            Ots::W8 => 34,
        }
    }

    /// The greatest digit, which is the number of steps in a chain.
    pub fn top_digit(self) -> u8
        ensures { result ≡ top_digit self }
    {
        match self {
            Ots::W1 => 1,
            Ots::W2 => 3,
            Ots::W4 => 15,
            Ots::W8 => 255,
        }
    }

    /// By how many bits the checksum is shifted.
    pub fn checksum_shift(self) -> u32
        ensures { result ≡ checksum_shift self }
    {
        match self {
            Ots::W1 => 7,
            Ots::W2 => 6,
            Ots::W4 => 4,
            Ots::W8 => 0,
        }
    }
}
