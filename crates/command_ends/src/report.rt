ghost use Rattle.std.specs.Prelude.{◌≡◌, ◌≤◌, ◌++◌, IfOk, string_bytes, codes};
ghost use Rattle.command_ends.specs.Output.{PutsBeginning};
ghost use Rattle.command_ends.specs.Refusals.{status_of, line_text, fault_line, keep_fault_text, line_fault_name, no_answer_text, scenario_fault_text};
ghost use Rattle.command_ends.specs.Ended.{sink_of, Told, ErrorSink};

use crate::refusal::{KeepFault, LineFault, NoAnswer, Refusal, ScenarioFault};
use outside::{PutAnswer, Sink};
use plain_lists::Want;
use std::alloc::{AllocError, Global};

/// Puts a refusal's line, and gives the status.
pub fn report<E: Sink>(alloc: Global, refusal: &Refusal, err: &mut E) -> u8
    ensures told { Told refusal.now (sink_of (E.faults err.old) (E.faults err.new) (E.told err.old) (E.told err.new)) result }
{
    match line_of(alloc, refusal) {
        Ok(line) => match err.put(line.as_bytes()) {
            Ok(()) | Err(PutAnswer::Failed) => status_of(refusal),
            Err(PutAnswer::Want) => memory_line(err),
        },
        Err(_) => memory_line(err),
    }
}

fn memory_line<E: Sink>(err: &mut E) -> u8
    ensures status { result ≡ 7 }
    ensures never_falls { E.faults err.old ≤ E.faults err.new }
    ensures put { PutsBeginning (E.told err.old) (codes "spire: memory\n") (E.told err.new) }
{
    let _ = err.put(b"spire: memory\n");
    7
}

fn status_of(refusal: &Refusal) -> u8
    ensures { result ≡ status_of refusal.now }
{
    match refusal {
        Refusal::Usage => 2,
        Refusal::Fault { name: _ } | Refusal::TooLong { name: _ } => 3,
        Refusal::Scenario { fault: _ } => 4,
        Refusal::Script { fault: _, line: _ }
        | Refusal::Words { fault: _, line: _ }
        | Refusal::History {
            fault: _,
            number: _,
        }
        | Refusal::Pieces { line: _ }
        | Refusal::Keep { name: _, fault: _ } => 5,
        Refusal::Output => 6,
        Refusal::Memory => 7,
        Refusal::NotVerified => 8,
        Refusal::NoAnswer { why: _ } => 9,
    }
}

fn line_of(alloc: Global, refusal: &Refusal) -> Result<String, AllocError>
    ensures { IfOk result (λ line. string_bytes line ≡ line_text refusal.now) }
{
    match refusal {
        Refusal::Usage => String::from_str(alloc, "spire: usage\n"),
        Refusal::Fault { name } => {
            let name = name.as_str();
            format!(in alloc; "spire: file {name} fault\n")
        }
        Refusal::TooLong { name } => {
            let name = name.as_str();
            format!(in alloc; "spire: file {name} too long\n")
        }
        Refusal::Scenario { fault } => scenario_line(alloc, fault),
        Refusal::Script { fault, line } => fault_line(alloc, "script", *fault, *line),
        Refusal::Words { fault, line } => fault_line(alloc, "words", *fault, *line),
        Refusal::History { fault, number } => fault_line(alloc, "history", *fault, *number),
        Refusal::Pieces { line } => fault_line(alloc, "parts", LineFault::BadLine, *line),
        Refusal::Keep { name, fault } => keep_line(alloc, name.as_str(), *fault),
        Refusal::NotVerified => String::from_str(alloc, "spire: not verified\n"),
        Refusal::NoAnswer { why } => no_answer_line(alloc, *why),
        Refusal::Output => String::from_str(alloc, "spire: output fault\n"),
        Refusal::Memory => String::from_str(alloc, "spire: memory\n"),
    }
}

fn scenario_line(alloc: Global, fault: &ScenarioFault) -> Result<String, AllocError>
    ensures { IfOk result (λ line. string_bytes line ≡ codes "spire: scenario " ++ scenario_fault_text fault.now ++ codes "\n") }
{
    match fault {
        ScenarioFault::BadToml => String::from_str(alloc, "spire: scenario BadToml\n"),
        ScenarioFault::MissingKey { name } => {
            let name = name.as_str();
            format!(in alloc; "spire: scenario MissingKey {name}\n")
        }
        ScenarioFault::BadValue { name } => {
            let name = name.as_str();
            format!(in alloc; "spire: scenario BadValue {name}\n")
        }
        ScenarioFault::TooMany { name } => {
            let name = name.as_str();
            format!(in alloc; "spire: scenario TooMany {name}\n")
        }
        ScenarioFault::UnknownKey { name } => {
            let name = name.as_str();
            format!(in alloc; "spire: scenario UnknownKey {name}\n")
        }
    }
}

fn keep_line(alloc: Global, name: &str, fault: KeepFault) -> Result<String, AllocError>
    ensures { IfOk result (λ line. string_bytes line ≡ codes "spire: keep " ++ name.now ++ codes " " ++ keep_fault_text fault ++ codes "\n") }
{
    let why = keep_fault(alloc, fault)?;
    let why = why.as_str();
    let line = format!(in alloc; "spire: keep {name} {why}\n")?;
    Ok(line)
}

fn keep_fault(alloc: Global, fault: KeepFault) -> Result<String, AllocError>
    ensures { IfOk result (λ text. string_bytes text ≡ keep_fault_text fault) }
{
    match fault {
        KeepFault::BadLine { line } => format!(in alloc; "BadLine {line}"),
        KeepFault::NotLegal { stamp } => format!(in alloc; "NotLegal {stamp}"),
        KeepFault::OtherWords { stamp } => format!(in alloc; "OtherWords {stamp}"),
        KeepFault::Twice => String::from_str(alloc, "Twice"),
    }
}

fn no_answer_line(alloc: Global, why: NoAnswer) -> Result<String, AllocError>
    ensures { IfOk result (λ line. string_bytes line ≡ codes "spire: " ++ no_answer_text why ++ codes "\n") }
{
    match why {
        NoAnswer::NotCertified => String::from_str(alloc, "spire: parts NotCertified\n"),
        NoAnswer::NoText => String::from_str(alloc, "spire: rebuild NoText\n"),
        NoAnswer::NoPoint => String::from_str(alloc, "spire: trend NoPoint\n"),
        NoAnswer::BadRange => String::from_str(alloc, "spire: trend BadRange\n"),
        NoAnswer::NotReached { executed } => {
            format!(in alloc; "spire: trend NotReached {executed}\n")
        }
        NoAnswer::NoMatch => String::from_str(alloc, "spire: trend NoMatch\n"),
        NoAnswer::BadPart => String::from_str(alloc, "spire: picture BadRange\n"),
        NoAnswer::NoSuchEntry { last } => {
            format!(in alloc; "spire: picture NotReached {last}\n")
        }
        NoAnswer::NoPlot => String::from_str(alloc, "spire: plot NoPoint\n"),
    }
}

#[tactic(auto, unfolding(crate::specs::Refusals::fault_line))]
fn fault_line(
    alloc: Global,
    file: &str,
    fault: LineFault,
    number: u64,
) -> Result<String, AllocError>
    ensures { IfOk result (λ line. string_bytes line ≡ fault_line file.now fault number) }
{
    let name = fault_name(fault);
    let line = format!(in alloc; "spire: {file} {name} {number}\n")?;
    Ok(line)
}

fn fault_name(fault: LineFault) -> &'static str
    ensures { result.now ≡ line_fault_name fault }
{
    match fault {
        LineFault::BadLine => "BadLine",
        LineFault::NoActor => "NoActor",
        LineFault::NoFrame => "NoFrame",
        LineFault::TooMany => "TooMany",
        LineFault::NotLegal => "NotLegal",
    }
}
