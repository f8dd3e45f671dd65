//! What an actor kept, read again: its list, with the bench on which the actor did it.
ghost use Rattle.std.specs.Prelude.{◌≡◌, ◌<◌, ◌^◌, ◌&&◌, ◌++◌, ◌∷◌, [], length, take, true, nat_eq, IfOk};
ghost use Rattle.std.specs.Str.{bytes_eq};
ghost use Rattle.script_grammar.specs.Names.{who_of};
ghost use Rattle.printed_history.specs.Reading.{IsSoFar, Takes, contents_in, is_at_hand, world_in};
ghost use Rattle.kept_lines.specs.Adding.{Adds, list_read};
ghost use Rattle.kept_lines.specs.Reading.{Reads, entry_part, entry_told, is_actor, kept_in, line_in};
ghost use Rattle.joint_lists.specs.Stations.{IsStation};

use crate::refusal::{KeptRefusal, at};
use crate::writing::put_line;
use checked_frames::RingMemory;
use plain_lists::Want;
use printed_history::SoFar;
use run_lines::{EntryLine, first_line, read_entry_line};
use script_grammar::Company;
use std::alloc::Global;

/// How many bytes a digest takes, with the word before it.
const DIGEST: usize = 72;

/// The list of which an actor at hand kept these bytes, as its history: they are read into one that has no entry yet. What
/// stands behind the last line feed was torn, and is passed over.
pub fn reopen<'a>(
    alloc: Global,
    begun: SoFar<'a>,
    actor: u32,
    bytes: &[u8],
) -> Result<SoFar<'a>, KeptRefusal>
    requires at_hand { IsSoFar begun }
    requires none { begun.history ≡ [] }
    requires own { is_at_hand begun actor ≡ true }
    requires short { length bytes.now < 2 ^ 32 }
    ensures list { Reads (list_read result) (kept_in (contents_in begun.entry) actor bytes.now) }
    ensures at_hand { IfOk result (λ so_far. IsSoFar so_far × (contents_in so_far ≡ contents_in begun.entry) × (so_far.only ≡ begun.entry.only)) }
    ensures station { IfOk result (λ so_far. IsStation (contents_in begun.entry) actor so_far.history) }
    ensures short { IfOk result (λ so_far. length so_far.history < 2 ^ 32) }
{
    let company = begun.company();
    let mut so_far = begun;
    let mut memory = RingMemory::new(alloc, &so_far.ring);
    let mut rest = bytes;
    while let Some((line, after)) = first_line(rest) {
        match add_line(alloc, &company, &mut so_far, &mut memory, actor, line) {
            Ok(()) => rest = after,
            Err(refusal) => return Err(refusal),
        }
    }
    Ok(so_far)
}

/// Adds the entry of a line.
fn add_line(
    alloc: Global,
    company: &Company<'_>,
    so_far: &mut SoFar<'_>,
    memory: &mut RingMemory,
    actor: u32,
    line: &[u8],
) -> Result<(), KeptRefusal>
    requires at_hand { IsSoFar so_far.old }
    requires own { is_at_hand so_far.old actor ≡ true }
    requires short { length so_far.old.history < 2 ^ 32 }
    requires company { company.now ≡ who_of (contents_in so_far.old) }
    ensures { Adds (line_in (contents_in so_far.old) actor so_far.old.history line.now) result so_far.old so_far.new }
{
    let stamp = so_far.history.len() as u64;
    let told = match read_entry_line(company, entry_part(line)) {
        Ok(told) => told,
        Err(fault) => return Err(at(fault, stamp + 1)),
    };
    if !take_told(so_far, memory, actor, told)? {
        return Err(KeptRefusal::NotLegal { stamp });
    }
    let mut made = Vec::new(alloc);
    put_line(alloc, &mut made, company.cast(), so_far)?;
    if !is_same(line, made.as_slice()) {
        return Err(KeptRefusal::OtherWords { stamp });
    }
    Ok(())
}

fn is_same(line: &[u8], made: &[u8]) -> bool
    ensures { result ≡ bytes_eq line.now made.now }
{
    line == made
}

/// A line without its digest.
fn entry_part(line: &[u8]) -> &[u8]
    ensures { result.now ≡ entry_part line.now }
{
    &line[..line.len().saturating_sub(DIGEST)]
}

/// Adds the entry that a line tells, if it is the next of this actor, and tells whether it may come.
fn take_told(
    so_far: &mut SoFar<'_>,
    memory: &mut RingMemory,
    actor: u32,
    line: EntryLine,
) -> Result<bool, Want>
    requires at_hand { IsSoFar so_far.old }
    requires own { is_at_hand so_far.old actor ≡ true }
    requires short { length so_far.old.history < 2 ^ 32 }
    ensures { IfOk result (λ comes. Takes (entry_told (world_in so_far.old) actor so_far.old.history line) comes so_far.old so_far.new) }
{
    let EntryLine {
        stamp,
        actor: named,
        event,
        kinds: _,
    } = line;
    if stamp != so_far.history.len() as u64 || !is_actor(actor, named) {
        return Ok(false);
    }
    so_far.take(memory, actor, event)
}

fn is_actor(actor: u32, named: Option<u32>) -> bool
    ensures { result ≡ is_actor actor named }
{
    match named {
        Some(other) => other == actor,
        None => false,
    }
}
