//! The words of a line.
ghost use Rattle.std.specs.Prelude.{◌≡◌, Ok, IfOk, IfErr};
ghost use Rattle.script_grammar.specs.Faults.{Refuses};
ghost use Rattle.script_grammar.specs.Lines.{texts};
ghost use Rattle.part_lines.specs.Reading.{line_words};

use script_grammar::{LineRefusal, parts};
use std::alloc::Global;

/// The words of a line, which is text.
#[tactic(auto, unfolding(crate::specs::Reading::line_words))]
pub(crate) fn words_of(alloc: Global, line: &[u8]) -> Result<Vec<&str>, LineRefusal>
    ensures words { IfOk result (λ words. line_words line.now ≡ Ok (texts words.items)) }
    ensures fault { IfErr result (λ fault. Refuses fault (line_words line.now)) }
{
    match std::str::from_utf8(line) {
        Ok(text) => Ok(parts(alloc, text, ' ')?),
        Err(_) => Err(LineRefusal::BadLine),
    }
}
