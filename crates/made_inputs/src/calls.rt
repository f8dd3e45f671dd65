//! Calls of the main program from their grammar.
use crate::draws::Draws;
use crate::keys::{ACTORS, Keys};
use crate::texts;
use crate::words::fill;
use anyhow::Result;
use std::alloc::Global;

/// Stands between a call's words and its files `a`, `b` and `c`.
pub const SEPARATOR: char = '\x1e';

/// What calls are made over.
#[derive(Clone, Copy)]
pub struct Parts<'a> {
    pub alloc: Global,
    pub keys: &'a Keys,
    /// A scenario.
    pub scenario: &'a str,
    /// The entries of a printed run of that scenario, a line each.
    pub entries: &'a str,
}

const CALLS: [&str; 16] = [
    "play a b c",
    "play a b c",
    "play a b c",
    "replay a b",
    "replay a b",
    "blame a b",
    "trend a b %d %d %d",
    "trend a b 0 1 2",
    "parts a b %d %d",
    "parts a b 0 1",
    "rebuild a b",
    "keys a",
    "verify",
    "make %k",
    "run a b c 1 1",
    "%k a b",
];

/// A call with its files: its words, and behind a separator each of its three files.
pub fn call(parts: &Parts<'_>, draws: &mut Draws) -> Result<Vec<u8>> {
    // A made run takes longer than all others.
    let template = if draws.one_in(1000) {
        "make %n"
    } else {
        draws.pick(&CALLS)
    };
    if template == "verify" {
        return verification(parts, draws);
    }
    let mut call = String::new(parts.alloc);
    fill(draws, &mut call, template)?;
    call.push(SEPARATOR)?;
    let scenario = first_file(parts, draws)?;
    call.push_str(scenario.as_str())?;
    call.push(SEPARATOR)?;
    let second = second_file(parts, draws, template)?;
    call.push_str(second.as_str())?;
    call.push(SEPARATOR)?;
    let words = texts::sayings(parts.alloc, draws)?;
    call.push_str(words.as_str())?;
    Ok(call.into_bytes())
}

// Mostly the scenario that the other files are made for.
fn first_file(parts: &Parts<'_>, draws: &mut Draws) -> Result<String> {
    if draws.one_in(6) {
        return texts::scenario(parts.alloc, draws);
    }
    Ok(String::from_str(parts.alloc, parts.scenario)?)
}

fn second_file(parts: &Parts<'_>, draws: &mut Draws, template: &str) -> Result<String> {
    let (command, _) = first_word(template);
    match command {
        "play" | "run" => texts::script(parts.alloc, draws),
        "rebuild" => texts::parts(parts.alloc, draws),
        _ => texts::history(parts.alloc, draws, parts.entries),
    }
}

// A signature by one key of a short message, seldom verified under another key. It stands last, since it may hold separators.
fn verification(parts: &Parts<'_>, draws: &mut Draws) -> Result<Vec<u8>> {
    let message = [draws.byte(), draws.byte(), draws.byte()];
    let signer = draws.below(ACTORS);
    let other = if draws.one_in(6) {
        draws.below(ACTORS)
    } else {
        signer
    };
    let public = parts.keys.public(other)?;
    let mut call = String::from_str(parts.alloc, "verify ")?;
    call.push_str(public.as_str())?;
    call.push_str(" a c")?;
    call.push(SEPARATOR)?;
    let mut call = call.into_bytes();
    call.extend_from_slice(&message)?;
    call.extend_from_slice(b"\x1e\x1e")?;
    let sig = parts.keys.sign(draws, signer, &message)?;
    call.extend_from_slice(&sig)?;
    Ok(call)
}

/// The first word, and what stands behind it.
pub fn first_word(text: &str) -> (&str, &str) {
    match text.split_once(' ') {
        Some(parts) => parts,
        None => (text, ""),
    }
}
