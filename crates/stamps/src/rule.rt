//! What a seat knows of the stamps, and what each step on their word keeps and changes.
use atomic_table::{Join, Play, Split, TableRule};

/// What a seat knows. No value of it is made: it stands in proofs alone, which read an array as a list of any length.
pub struct Known {
    /// How many seats were made, in the first seat; 0 in another.
    pub made: u64,
    /// The numbers of the seats that are in this one.
    pub numbers: [u32; 0],
    /// The numbers that these seats have drawn.
    pub drawn: [u64; 0],
}

/// The rule of the word, for this count of seats.
pub struct EachOnce;

impl TableRule<u8, Known, u32> for EachOnce {
    ghost use Rattle.std.specs.Prelude.{[], ◌∷◌};
    ghost use Rattle.stamps.specs.Steps.{IsKept, known};

    ghost holds = { λ seats table. IsKept seats table.words table.views };

    ghost first = { λ seats. known 1 (0 ∷ []) [] };
}

/// The step of `draw`.
pub struct Draws;

impl Play<u8, Known> for Draws {
    ghost use Rattle.stamps.specs.Steps.{Drew};

    ghost then = { λ step before found after. Drew before found after };
}

/// The step of `split`.
pub struct SplitsOff;

impl Split<Known> for SplitsOff {
    ghost use Rattle.stamps.specs.Steps.{one_more, newcomer};

    ghost left = { one_more };

    ghost right = { newcomer };
}

/// The step of `join`.
pub struct Joins;

impl Join<Known> for Joins {
    ghost use Rattle.stamps.specs.Steps.{together, spent};

    ghost both = { together };

    ghost spent = { spent };
}
