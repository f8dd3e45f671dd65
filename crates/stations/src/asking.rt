//! What a line that comes asks for.
ghost use Rattle.std.specs.Prelude.{◌≡◌, Result, IfOk};
ghost use Rattle.run_lines.specs.declared.event_line.EventLine.{EventLine as EventLineWord};
ghost use Rattle.script_grammar.specs.declared.fault.LineRefusal.{LineRefusal as LineRefusalWord};
ghost use Rattle.script_grammar.specs.Faults.{Answers};
ghost use Rattle.script_grammar.specs.Lines.{texts};
ghost use Rattle.station_rules.specs.Answers.{event_asked, again_asked, words_asked, line_asked};
ghost use Rattle.station_rules.specs.Coming.{is_given};
ghost use Rattle.stations.specs.Asking.{IsGivenAt, asked_by};

use plain_lists::Want;
use run_lines::{EventLine, read_event};
use script_grammar::{LineRefusal, parts, wide};
use std::alloc::Global;

/// What a station is asked for.
#[derive(Drop)]
pub enum Ask {
    /// An event of its actor.
    Given(EventLine),
    /// The words of its entries from this stamp on once more.
    Again { stamp: u64 },
    /// Something that isn't clear.
    Unclear,
}

fn is_given(line: &EventLine) -> bool
    ensures { result ≡ is_given line.now }
{
    match line {
        EventLine::Frame { .. }
        | EventLine::Tick
        | EventLine::Command { .. }
        | EventLine::Field { .. }
        | EventLine::Poll => true,
        _ => false,
    }
}

fn event_ask(read: Result<EventLine, LineRefusal>) -> Result<Ask, Want>
    ensures asked { (right : Result EventLineWord LineRefusalWord) → Answers read right → IfOk result (λ ask. asked_by ask ≡ event_asked right) }
    ensures given { IfOk result (λ ask. IsGivenAt ask) }
{
    match read {
        Ok(line) => {
            if is_given(&line) {
                Ok(Ask::Given(line))
            } else {
                Ok(Ask::Unclear)
            }
        }
        Err(LineRefusal::Want) => Err(Want),
        Err(_) => Ok(Ask::Unclear),
    }
}

fn again_ask(fields: &[&str]) -> Result<Ask, Want>
    ensures asked { IfOk result (λ ask. asked_by ask ≡ again_asked (texts fields.now)) }
    ensures given { IfOk result (λ ask. IsGivenAt ask) }
{
    match fields {
        [stamp] => match wide(stamp) {
            Ok(stamp) => Ok(Ask::Again { stamp }),
            Err(LineRefusal::Want) => Err(Want),
            Err(_) => Ok(Ask::Unclear),
        },
        _ => Ok(Ask::Unclear),
    }
}

fn words_ask(alloc: Global, words: &[&str]) -> Result<Ask, Want>
    ensures asked { IfOk result (λ ask. asked_by ask ≡ words_asked (texts words.now)) }
    ensures given { IfOk result (λ ask. IsGivenAt ask) }
{
    match words {
        [] => Ok(Ask::Unclear),
        [what, fields @ ..] => {
            if *what == "again" {
                again_ask(fields)
            } else {
                event_ask(read_event(alloc, words))
            }
        }
    }
}

/// What a line asks for.
pub(crate) fn line_ask(alloc: Global, line: &[u8]) -> Result<Ask, Want>
    ensures asked { IfOk result (λ ask. asked_by ask ≡ line_asked line.now) }
    ensures given { IfOk result (λ ask. IsGivenAt ask) }
{
    match std::str::from_utf8(line) {
        Ok(text) => {
            let words = parts(alloc, text, ' ')?;
            words_ask(alloc, words.as_slice())
        }
        Err(_) => Ok(Ask::Unclear),
    }
}
