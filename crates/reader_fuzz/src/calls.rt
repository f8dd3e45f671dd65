//! Calls of the main program over files in memory.
use anyhow::{Context, Result};
use made_inputs::calls::{SEPARATOR, first_word};
use outside::{MemoryFiles, MemorySink};
use run_program::call::spire;
use sha2::{Digest, Sha256};
use std::alloc::Global;
use std::sync::Wait;
use std::thread::Threads;

const COMMANDS: [&str; 15] = [
    "play", "run", "replay", "make", "keys", "verify", "parts", "rebuild", "blame", "trend",
    "delays", "page", "picture", "plot", "chart",
];

/// What a call came to.
#[derive(Drop)]
struct Ending {
    status: u8,
    /// What was put to the output.
    text: Vec<u8>,
    /// What was put to the error output.
    line: Vec<u8>,
}

fn run<R: Threads + Wait + Sync>(
    rt: &R,
    alloc: Global,
    words: &str,
    files: [&[u8]; 3],
) -> Result<Ending> {
    let words = words_of(alloc, words)?;
    let mut files = memory_files(alloc, files)?;
    let mut out = MemorySink::make(alloc, Vec::new(alloc));
    let mut err = MemorySink::make(alloc, Vec::new(alloc));
    let status = spire(rt, alloc, words.as_slice(), &mut files, &mut out, &mut err);
    ended(alloc, status, out.bytes(), err.bytes())
}

fn words_of(alloc: Global, line: &str) -> Result<Vec<String>> {
    let mut words = Vec::new(alloc);
    for word in line.split(' ') {
        words.push(String::from_str(alloc, word)?)?;
    }
    Ok(words)
}

fn ended(alloc: Global, status: u8, text: &[u8], line: &[u8]) -> Result<Ending> {
    let text = Vec::from_slice(alloc, text)?;
    let line = Vec::from_slice(alloc, line)?;
    Ok(Ending { status, text, line })
}

fn memory_files(alloc: Global, contents: [&[u8]; 3]) -> Result<MemoryFiles> {
    let mut files = Vec::new(alloc);
    for (name, content) in ["a", "b", "c"].iter().zip(contents.iter()) {
        let name = String::from_str(alloc, *name)?;
        let content = Vec::from_slice(alloc, *content)?;
        files.push((name, content))?;
    }
    Ok(MemoryFiles::make(alloc, files, Vec::new(alloc)))
}

/// The text of a play without words of intruded masters.
pub fn played<R: Threads + Wait + Sync>(
    rt: &R,
    alloc: Global,
    scenario: &str,
    script: &str,
) -> Result<String> {
    let ending = run(
        rt,
        alloc,
        "play a b c",
        [scenario.as_bytes(), script.as_bytes(), b""],
    )?;
    String::from_utf8(ending.text).ok().context("a text")
}

/// What the program ends a call with. The answer begins with the command, the status and, of a file's or a history's refusal,
/// the file and the fault, in one word; then comes what else the refusal says, or the digest of the text. Words that are no text
/// are `untold`.
pub fn answer<R: Threads + Wait + Sync>(rt: &R, alloc: Global, input: &[u8]) -> Result<String> {
    let (words, rest) = cut(input);
    let (first, rest) = cut(rest);
    let (second, third) = cut(rest);
    let Ok(words) = std::str::from_utf8(words) else {
        return Ok(String::from_str(alloc, "untold")?);
    };
    let ending = run(rt, alloc, words, [first, second, third])?;
    told(alloc, command_of(words), &ending)
}

// What stands before the first separator and behind it.
fn cut(bytes: &[u8]) -> (&[u8], &[u8]) {
    match bytes.iter().position(|byte| char::from(*byte) == SEPARATOR) {
        Some(place) => (&bytes[..place], &bytes[place + 1..]),
        None => (bytes, &[]),
    }
}

fn command_of(words: &str) -> &'static str {
    let (word, _) = first_word(words);
    for command in COMMANDS {
        if command == word {
            return command;
        }
    }
    "other"
}

fn told(alloc: Global, command: &str, ending: &Ending) -> Result<String> {
    let status = ending.status;
    match status {
        0 => {
            let digest = hex::encode(alloc, Sha256::digest(ending.text.as_slice()))?;
            Ok(format!(in alloc; "{command}-0 {digest}")?)
        }
        4 | 5 | 9 => {
            let (file, fault, place) = refusal(ending.line.as_slice());
            Ok(format!(in alloc; "{command}-{status}-{file}-{fault} {place}")?)
        }
        _ => Ok(format!(in alloc; "{command}-{status}")?),
    }
}

// What a line `spire: FILE FAULT PLACE` refuses, why and where.
fn refusal(line: &[u8]) -> (&str, &str, &str) {
    let line = std::str::from_utf8(line).unwrap_or("");
    let line = line.strip_suffix('\n').unwrap_or(line);
    let (_, rest) = first_word(line);
    let (file, rest) = first_word(rest);
    let (fault, place) = first_word(rest);
    (file, fault, place)
}
