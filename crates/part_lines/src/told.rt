//! What a text of parts tells.
ghost use Rattle.std.specs.Prelude.{◌≡◌, ◌≤◌, ◌+◌, IfOk};
ghost use Rattle.std.specs.List.{AllByRecursion};
ghost use Rattle.parity_parts.specs.Parts.{AreDifferent, masters};
ghost use Rattle.parity_parts.specs.Rebuilding.{CanBePart};
ghost use Rattle.script_grammar.specs.Faults.{Answers};
ghost use Rattle.run_lines.specs.Runs.{pieces};
ghost use Rattle.part_lines.specs.Reading.{and_then, from_least, part_in, each_line, rising, told_in};
ghost use Rattle.part_lines.specs.Rebuilding.{ReadsText};

use crate::fault::{RebuildRefusal, at};
use crate::parts::{read_digest, read_part};
use parity_parts::Part;
use plain_lists::Items;
use quorum_sets::Sizes;
use run_lines::first_line;
use script_grammar::LineRefusal;
use std::alloc::Global;

/// The digest of a text, and the parts that may be its masters', rising by master.
#[derive(Drop)]
pub struct Told {
    pub digest: [u8; 32],
    pub parts: Items<Part>,
}

/// The part that a line gives, if its master isn't below `least`.
fn read_next(alloc: Global, sizes: &Sizes, least: u32, line: &[u8]) -> Result<Part, LineRefusal>
    ensures { Answers result (and_then (from_least least) (part_in sizes.now.n sizes.now.f line.now)) }
{
    let part = read_part(alloc, sizes, line)?;
    if part.master < least {
        return Err(LineRefusal::BadLine);
    }
    Ok(part)
}

/// The parts that the lines of a text give, the first of them being line 2.
fn read_parts(alloc: Global, sizes: &Sizes, text: &[u8]) -> Result<Items<Part>, RebuildRefusal>
    ensures { ReadsText result (rising 0 2 (each_line (part_in sizes.now.n sizes.now.f) (pieces text.now))) }
{
    let mut parts = Items::new(alloc);
    let mut rest = text;
    let mut least = 0;
    let mut line = 2;
    while let Some((bytes, after)) = first_line(rest) {
        match read_next(alloc, sizes, least, bytes) {
            Ok(part) => {
                least = part.master + 1;
                parts.push(part)?;
            }
            Err(fault) => return Err(at(fault, line)),
        }
        rest = after;
        line += 1;
    }
    if rest.is_empty() {
        return Ok(parts);
    }
    Err(RebuildRefusal::BadLine { line })
}

/// What a text of parts tells. Its fault is `BadLine`, at its first line that isn't of its form or whose master doesn't rise,
/// or want of memory.
#[tactic(auto, unfolding(crate::specs::Reading::told_in))]
pub fn read_told(alloc: Global, sizes: &Sizes, text: &[u8]) -> Result<Told, RebuildRefusal>
    ensures told { ReadsText result (told_in sizes.now.n sizes.now.f text.now) }
    ensures different { IfOk result (λ told. AreDifferent (masters told.parts)) }
    ensures parts { IfOk result (λ told. AllByRecursion (CanBePart sizes.now.n sizes.now.f) told.parts) }
{
    let Some((line, rest)) = first_line(text) else {
        return Err(RebuildRefusal::BadLine { line: 1 });
    };
    match read_digest(alloc, line) {
        Ok(digest) => {
            let parts = read_parts(alloc, sizes, rest)?;
            Ok(Told { digest, parts })
        }
        Err(fault) => Err(at(fault, 1)),
    }
}
