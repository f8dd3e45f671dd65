//! Calls of the program over files in memory.
use crate::calls::{Failing, NONE_FAILS, words_of};
use outside::{MemoryFiles, MemorySink};
use run_program::call::spire;
use std::alloc::Global;
use std::sync::Wait;
use std::test::Fail;
use std::thread::Threads;

/// What a call ends in: its status, the line on the error output, and what was put to the output.
#[derive(Drop)]
pub(crate) struct Ending {
    pub(crate) status: u8,
    pub(crate) line: Vec<u8>,
    pub(crate) put: Vec<u8>,
}

/// A file's name and content.
pub(crate) type File<'a> = (&'a str, &'a [u8]);

fn in_memory(alloc: Global, file: &File<'_>) -> Result<(String, Vec<u8>), Fail> {
    let name = String::from_str(alloc, file.0)?;
    let content = Vec::from_slice(alloc, file.1)?;
    Ok((name, content))
}

/// These files, where one load fails (0: none).
fn files_of(alloc: Global, files: &[File<'_>], failing: u64) -> Result<MemoryFiles, Fail> {
    let mut listed = Vec::new(alloc);
    for file in files {
        listed.push(in_memory(alloc, file)?)?;
    }
    let failing = vec![in alloc; failing]?;
    Ok(MemoryFiles::make(alloc, listed, failing))
}

fn sink_of(alloc: Global, failing: u64) -> Result<MemorySink, Fail> {
    Ok(MemorySink::make(alloc, vec![in alloc; failing]?))
}

fn ending_of(alloc: Global, status: u8, line: &[u8], put: &[u8]) -> Result<Ending, Fail> {
    let line = Vec::from_slice(alloc, line)?;
    let put = Vec::from_slice(alloc, put)?;
    Ok(Ending { status, line, put })
}

/// Runs a command over files, where some calls fail.
pub(crate) fn call_failing<R: Threads + Wait + Sync>(
    rt: &R,
    alloc: Global,
    line: &str,
    files: &[File<'_>],
    failing: Failing,
) -> Result<Ending, Fail> {
    let words = words_of(alloc, line)?;
    let mut files = files_of(alloc, files, failing.load)?;
    let mut out = sink_of(alloc, failing.put)?;
    let mut err = sink_of(alloc, failing.line)?;
    let status = spire(rt, alloc, words.as_slice(), &mut files, &mut out, &mut err);
    ending_of(alloc, status, err.bytes(), out.bytes())
}

/// Runs a command over files.
pub(crate) fn call<R: Threads + Wait + Sync>(
    rt: &R,
    alloc: Global,
    line: &str,
    files: &[File<'_>],
) -> Result<Ending, Fail> {
    call_failing(rt, alloc, line, files, NONE_FAILS)
}

/// The text of a play.
pub(crate) fn play<R: Threads + Wait + Sync>(
    rt: &R,
    alloc: Global,
    scenario: &str,
    script: &str,
    words: &str,
) -> Result<Vec<u8>, Fail> {
    let played = call(
        rt,
        alloc,
        "play scenario script words",
        &[
            ("scenario", scenario.as_bytes()),
            ("script", script.as_bytes()),
            ("words", words.as_bytes()),
        ],
    )?;
    Ok(played.put)
}
