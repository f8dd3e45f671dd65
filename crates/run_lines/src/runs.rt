//! The lines of the entries of a printed run.
ghost use Rattle.std.specs.Prelude.{◌≡◌, ◌≤◌, ◌<◌, ◌+◌, ◌^◌, ◌==◌, ◌∷◌, [], ℕ, zero, Ok, if◌then◌else◌, codes, length, position, IfSome, IfOk, IfErr};
ghost use Rattle.std.specs.Option.{MatchOption};
ghost use Rattle.std.specs.Str.{bytes_eq};
ghost use Rattle.scenario_file.specs.declared.actors.Cast.{Cast};
ghost use Rattle.script_grammar.specs.Faults.{Answers};
ghost use Rattle.run_lines.specs.Runs.{pieces, bad_line, counts, count_in, counted, entries_in, after_heads, fault_at, run_in, ReadsRun};

use crate::entry_line::{EntryLine, read_entry_line};
use crate::refusal::HistoryRefusal;
use plain_lists::Items;
use script_grammar::{Company, LineRefusal, narrow};

fn line_feed(text: &[u8]) -> Option<usize>
    ensures place { result ≡ position (λ b. b == 10) text.now }
    ensures within { IfSome result (λ end. end < length text.now) }
{
    text.iter().position(|byte| *byte == b'\n')
}

/// The first line of a text and what stands behind its line feed. None where no line feed is left.
pub fn first_line(text: &[u8]) -> Option<(&[u8], &[u8])>
    ensures pieces { MatchOption result (pieces text.now ≡ text.now ∷ []) (λ cut. pieces text.now ≡ cut.0.now ∷ pieces cut.1.now) }
    ensures shorter { IfSome result (λ cut. length cut.1.now < length text.now) }
{
    match line_feed(text) {
        None => None,
        Some(end) => Some((&text[..end], &text[end + 1..])),
    }
}

/// Whether a line is the first of a run.
fn is_title(line: &[u8]) -> bool
    ensures { result ≡ bytes_eq line.now (codes "spire 1") }
{
    line == b"spire 1".as_slice()
}

/// Whether a line tells how many entries follow.
fn counts(line: &[u8]) -> bool
    ensures { result ≡ counts line.now }
{
    line.starts_with(b"history ")
}

/// How many entries follow, below 2^32.
fn count(digits: &[u8]) -> Result<u32, LineRefusal>
    ensures { Answers result (count_in digits.now) }
{
    match std::str::from_utf8(digits) {
        Ok(text) => narrow(text),
        Err(_) => Err(LineRefusal::BadLine),
    }
}

/// A fault of the line of this number.
fn at(fault: LineRefusal, line: u64) -> HistoryRefusal
    ensures { result ≡ fault_at line fault }
{
    match fault {
        LineRefusal::Want => HistoryRefusal::Want,
        LineRefusal::BadLine | LineRefusal::NoActor => HistoryRefusal::BadLine { line },
    }
}

/// So many lines of entries, the first of this number, and then the end.
fn read_entries(
    company: &Company<'_>,
    first: u64,
    count: u32,
    text: &[u8],
) -> Result<Items<EntryLine>, HistoryRefusal>
    requires { first ≤ 2 ^ 63 + 2 }
    ensures lines { ReadsRun result (entries_in company.now.cast first count (pieces text.now)) }
    ensures few { IfOk result (λ entries. length entries < 2 ^ 32) }
{
    let mut entries = Items::new(company.alloc());
    let mut rest = text;
    for place in 0..u64::from(count) {
        let line = first + place;
        let Some((bytes, after)) = first_line(rest) else {
            return Err(HistoryRefusal::BadLine { line });
        };
        match read_entry_line(company, bytes) {
            Ok(entry) => entries.push(entry)?,
            Err(fault) => return Err(at(fault, line)),
        }
        rest = after;
    }
    if is_end(rest) {
        return Ok(entries);
    }
    Err(HistoryRefusal::BadLine {
        line: first + u64::from(count),
    })
}

/// Whether nothing is left of a text.
fn is_end(rest: &[u8]) -> bool
    ensures { (cast : Cast) (number : ℕ) → entries_in cast number zero (pieces rest.now) ≡ (if result then Ok [] else bad_line number) }
{
    match first_line(rest) {
        None => rest.is_empty(),
        Some(_) => false,
    }
}

/// The entries behind the line of this number, which tells how many they are.
fn read_counted(
    company: &Company<'_>,
    line: u64,
    digits: &[u8],
    text: &[u8],
) -> Result<Items<EntryLine>, HistoryRefusal>
    requires { line ≤ 2 ^ 63 + 1 }
    ensures lines { ReadsRun result (counted company.now.cast line (count_in digits.now) (pieces text.now)) }
    ensures few { IfOk result (λ entries. length entries < 2 ^ 32) }
{
    match count(digits) {
        Ok(count) => read_entries(company, line + 1, count, text),
        Err(fault) => Err(at(fault, line)),
    }
}

/// The entries of a text without its first line. The lines up to that which tells how many they are are passed over.
fn read_after_heads(company: &Company<'_>, text: &[u8]) -> Result<Items<EntryLine>, HistoryRefusal>
    ensures lines { ReadsRun result (after_heads company.now.cast 2 (pieces text.now)) }
    ensures few { IfOk result (λ entries. length entries < 2 ^ 32) }
{
    let mut line = 2;
    let mut rest = text;
    while let Some((head, after)) = first_line(rest) {
        if counts(head) {
            return read_counted(company, line, &head[8..], after);
        }
        rest = after;
        line += 1;
    }
    if rest.is_empty() || counts(rest) {
        return Err(HistoryRefusal::BadLine { line });
    }
    Err(HistoryRefusal::BadLine { line: line + 1 })
}

/// The lines of the entries of a printed run.
#[tactic(auto, unfolding(crate::specs::Runs::run_in))]
pub fn read_run(company: &Company<'_>, text: &[u8]) -> Result<Items<EntryLine>, HistoryRefusal>
    ensures lines { ReadsRun result (run_in company.now.cast text.now) }
    ensures few { IfOk result (λ entries. length entries < 2 ^ 32) }
{
    let Some((title, rest)) = first_line(text) else {
        return Err(HistoryRefusal::BadLine { line: 1 });
    };
    if is_title(title) {
        return read_after_heads(company, rest);
    }
    Err(HistoryRefusal::BadLine { line: 1 })
}
