ghost use Rattle.std.specs.Prelude.{◌≡◌, Result};
ghost use Rattle.script_grammar.specs.Faults.{Answers, both};
ghost use Rattle.script_grammar.specs.Lines.{refusal_at};

use plain_lists::Want;
use thiserror::Error;

/// Why a file isn't read: its first line that has a fault. Lines are counted from 1.
#[derive(Clone, Copy, Debug, PartialEq, Eq, Error)]
pub enum ScriptRefusal {
    /// The line isn't in the grammar.
    #[error("BadLine {line}")]
    BadLine { line: u64 },
    /// The line names an actor that isn't there, or that hasn't the line's role.
    #[error("NoActor {line}")]
    NoActor { line: u64 },
    #[error("want of memory")]
    Want,
}

/// What is wrong with a line.
#[derive(Clone, Copy, Debug, PartialEq, Eq)]
pub enum LineRefusal {
    BadLine,
    NoActor,
    Want,
}

impl From<Want> for LineRefusal {
    ghost use Rattle.std.specs.Prelude.{◌≡◌};
    ghost use Rattle.script_grammar.specs.declared.fault.LineRefusal.TheVariants.{Want as WantFault};

    ghost from_gives = { λ _ fault. fault ≡ WantFault };

    fn from(_refused: Want) -> LineRefusal {
        LineRefusal::Want
    }
}

impl From<Want> for ScriptRefusal {
    ghost use Rattle.std.specs.Prelude.{◌≡◌};
    ghost use Rattle.script_grammar.specs.declared.fault.ScriptRefusal.TheVariants.{Want as WantRefusal};

    ghost from_gives = { λ _ refusal. refusal ≡ WantRefusal };

    fn from(_refused: Want) -> ScriptRefusal {
        ScriptRefusal::Want
    }
}

impl LineRefusal {
    /// The refusal of a file whose line of that number has the fault.
    pub fn at(self, line: u64) -> ScriptRefusal
        ensures { result ≡ refusal_at line self }
    {
        match self {
            LineRefusal::BadLine => ScriptRefusal::BadLine { line },
            LineRefusal::NoActor => ScriptRefusal::NoActor { line },
            LineRefusal::Want => ScriptRefusal::Want,
        }
    }
}

/// Two parts of a line. A fault in the form of either comes before an actor who isn't there.
pub fn both<A: Drop, B: Drop>(
    first: Result<A, LineRefusal>,
    second: Result<B, LineRefusal>,
) -> Result<(A, B), LineRefusal>
    ensures { (a : Result A LineRefusal) (b : Result B LineRefusal) → Answers first a → Answers second b → Answers result (both a b) }
{
    match (first, second) {
        (Ok(a), Ok(b)) => Ok((a, b)),
        (Err(LineRefusal::NoActor), Err(fault)) => Err(fault),
        (Err(fault), _) => Err(fault),
        (Ok(_), Err(fault)) => Err(fault),
    }
}
