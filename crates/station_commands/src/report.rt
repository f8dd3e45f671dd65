//! The line and the status of a station that ended before its input did.
ghost use Rattle.std.specs.Prelude.{◌≡◌, ◌≤◌, ◌++◌, IfOk, codes, string_bytes};
ghost use Rattle.command_ends.specs.Ended.{sink_of};
ghost use Rattle.command_ends.specs.Output.{PutsBeginning};
ghost use Rattle.command_ends.specs.Refusals.{keep_fault_text};
ghost use Rattle.station_commands.specs.Refusals.{ToldOwn, ToldSo, line_text, status_of};

use crate::refusal::{StationFault, StationRefusal};
use command_ends::KeepFault;
use outside::{PutAnswer, Sink};
use std::alloc::{AllocError, Global};

/// Puts a refusal's line, and gives the status.
pub(crate) fn report<E: Sink>(alloc: Global, refusal: &StationRefusal, err: &mut E) -> u8
    ensures told { ToldSo refusal.now (sink_of (E.faults err.old) (E.faults err.new) (E.told err.old) (E.told err.new)) result }
{
    match refusal {
        StationRefusal::Known(refusal) => command_ends::report::report(alloc, refusal, err),
        StationRefusal::Own(fault) => report_own(alloc, *fault, err),
    }
}

fn report_own<E: Sink>(alloc: Global, fault: StationFault, err: &mut E) -> u8
    ensures told { ToldOwn fault (sink_of (E.faults err.old) (E.faults err.new) (E.told err.old) (E.told err.new)) result }
{
    match line_of(alloc, fault) {
        Ok(line) => match err.put(line.as_bytes()) {
            Ok(()) | Err(PutAnswer::Failed) => status_of(fault),
            Err(PutAnswer::Want) => memory_line(err),
        },
        Err(_) => memory_line(err),
    }
}

fn memory_line<E: Sink>(err: &mut E) -> u8
    ensures status { result ≡ 7 }
    ensures never_falls { E.faults err.old ≤ E.faults err.new }
    ensures put { PutsBeginning (E.told err.old) (codes "spire: memory\n") (E.told err.new) }
{
    let _ = err.put(b"spire: memory\n");
    7
}

fn status_of(fault: StationFault) -> u8
    ensures { result ≡ status_of fault }
{
    match fault {
        StationFault::InUse => 3,
        StationFault::NotKept { fault: _ }
        | StationFault::BadRing { line: _ }
        | StationFault::BadKey { line: _ }
        | StationFault::OtherKey => 5,
        StationFault::Keep | StationFault::Full => 10,
        StationFault::Input => 11,
    }
}

fn line_of(alloc: Global, fault: StationFault) -> Result<String, AllocError>
    ensures { IfOk result (λ line. string_bytes line ≡ line_text fault) }
{
    match fault {
        StationFault::InUse => String::from_str(alloc, "spire: keep InUse\n"),
        StationFault::NotKept { fault } => keep_line(alloc, fault),
        StationFault::BadRing { line } => format!(in alloc; "spire: ring BadLine {line}\n"),
        StationFault::BadKey { line } => format!(in alloc; "spire: key BadLine {line}\n"),
        StationFault::OtherKey => String::from_str(alloc, "spire: key OtherKey\n"),
        StationFault::Input => String::from_str(alloc, "spire: input fault\n"),
        StationFault::Keep => String::from_str(alloc, "spire: keep fault\n"),
        StationFault::Full => String::from_str(alloc, "spire: keep full\n"),
    }
}

fn keep_line(alloc: Global, fault: KeepFault) -> Result<String, AllocError>
    ensures { IfOk result (λ line. string_bytes line ≡ codes "spire: keep " ++ keep_fault_text fault ++ codes "\n") }
{
    match fault {
        KeepFault::BadLine { line } => format!(in alloc; "spire: keep BadLine {line}\n"),
        KeepFault::NotLegal { stamp } => format!(in alloc; "spire: keep NotLegal {stamp}\n"),
        KeepFault::OtherWords { stamp } => format!(in alloc; "spire: keep OtherWords {stamp}\n"),
        KeepFault::Twice => String::from_str(alloc, "spire: keep Twice\n"),
    }
}
