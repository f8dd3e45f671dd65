ghost use Rattle.std.specs.Prelude.{◌≡◌, ◌==◌, ◌<◌, IfOk};
ghost use Rattle.std.specs.List.{slice_split};
ghost use Rattle.script_grammar.specs.Faults.{Answers, each};
ghost use Rattle.script_grammar.specs.Lines.{texts};

use crate::fault::LineRefusal;
use plain_lists::{Items, Want};
use std::alloc::{AllocError, Global};

/// The parts of a text between the places where a separator stands.
pub fn parts(alloc: Global, text: &str, separator: char) -> Result<Vec<&str>, Want>
    requires { separator < 128 }
    ensures { IfOk result (λ found. texts found.items ≡ slice_split (λ b. b == separator) text.now) }
{
    Ok(collected(alloc, text, separator)?)
}

fn collected(alloc: Global, text: &str, separator: char) -> Result<Vec<&str>, AllocError>
    requires { separator < 128 }
    ensures { IfOk result (λ found. texts found.items ≡ slice_split (λ b. b == separator) text.now) }
{
    text.split(separator).collect(alloc)
}

/// How one part of a line is read.
pub trait Part<T: Drop> {
    ghost use Rattle.std.specs.Prelude.{ℕ, List};
    ghost use Rattle.script_grammar.specs.Faults.{Answer};

    /// What a text says.
    ghost reads: { Self → List ℕ → Answer T };

    fn read(&self, text: &str) -> Result<T, LineRefusal>
        ensures { Answers result (reads self.now text.now) };
}

/// What each of several texts says.
pub fn each<T: Drop, P: Part<T>>(
    alloc: Global,
    part: &P,
    parts: &[&str],
) -> Result<Items<T>, LineRefusal>
    ensures { Answers result (each (P.reads part.now) (texts parts.now)) }
{
    let mut found = Items::new(alloc);
    let mut is_absent = false;
    for text in parts {
        match part.read(text) {
            Ok(value) => found.push(value)?,
            Err(LineRefusal::NoActor) => is_absent = true,
            Err(fault) => return Err(fault),
        }
    }
    if is_absent {
        return Err(LineRefusal::NoActor);
    }
    Ok(found)
}
