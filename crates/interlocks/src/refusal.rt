use plain_lists::Want;
use thiserror::Error;

/// Why a text is no rule.
#[derive(Clone, Copy, Debug, PartialEq, Eq, Error)]
pub enum RuleRefusal {
    /// The place of the first token that can't stand there or passes a limit, or the text's length.
    #[error("the text is no rule from byte {place} on")]
    BadRule { place: u64 },
    /// The place of the first name that nothing has. The text is a rule besides.
    #[error("nothing has the name at byte {place}")]
    NoName { place: u64 },
    #[error("want of memory")]
    Want,
}

impl From<Want> for RuleRefusal {
    ghost use Rattle.std.specs.Prelude.{◌≡◌};
    ghost use Rattle.interlocks.specs.declared.refusal.RuleRefusal.TheVariants.{Want};

    ghost from_gives = { λ _ e. e ≡ Want };

    fn from(_refused: plain_lists::Want) -> RuleRefusal {
        RuleRefusal::Want
    }
}

/// Why a token is not taken.
#[derive(Clone, Copy, Debug, PartialEq, Eq)]
pub enum TokenRefusal {
    /// It can't stand there, or passes the limit of nodes or levels.
    Misplaced,
    Want,
}

impl From<Want> for TokenRefusal {
    ghost use Rattle.std.specs.Prelude.{◌≡◌};
    ghost use Rattle.interlocks.specs.declared.refusal.TokenRefusal.TheVariants.{Want};

    ghost from_gives = { λ _ e. e ≡ Want };

    fn from(_refused: plain_lists::Want) -> TokenRefusal {
        TokenRefusal::Want
    }
}
