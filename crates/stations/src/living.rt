//! The life of a station: line by line it takes what comes, and what is to be said is put out once it is kept.
ghost use Rattle.std.specs.Prelude.{◌≡◌, ◌≢◌, ◌≤◌, ◌^◌, ◌∷◌, [], ℕ, length, List, Option, true, Err, IfOk, IfSome, OnOk, OnErr, IsErrOf};
ghost use Rattle.std.specs.Option.{option_map};
ghost use Rattle.outside.specs.Faults.{HasRisen};
ghost use Rattle.printed_history.specs.Reading.{contents_in};
ghost use Rattle.station_files.specs.Batch.{none_waits};
ghost use Rattle.station_rules.specs.Answers.{Asked, Start};
ghost use Rattle.stations.specs.declared.station.Station.{Station as StationWord};
ghost use Rattle.stations.specs.Asking.{IsGivenAt, asked_by};
ghost use Rattle.stations.specs.Beginning.{IsHeldWhole};
ghost use Rattle.stations.specs.Going.{Origin, Goes, HasAnsweredAll, HasLived, IsFull, IsGoing, IsLifeOf, Overfills, came_asked, origin};
ghost use Rattle.kept_lines.specs.Lines.{kept_file};
ghost use Rattle.stations.specs.Station.{IsReady, list_after, list_of};

use crate::asking::{Ask, line_ask};
use crate::station::{Station, TakeRefusal};
use outside::Sink;
use plain_lists::Want;
use station_files::{Batch, Came, KeptFile, LineAnswer, Lines, ReleaseAnswer};
use station_rules::laws::answer_is_said;
use std::alloc::Global;
use thiserror::Error;

/// How many bytes a line may have that a station takes: a word that starts a view of 14 masters has fewer.
pub const MOST_LINE: u64 = 4_194_304;

/// Why a station stopped before its input ended. Nothing was said then that isn't kept.
#[derive(Clone, Copy, Debug, PartialEq, Eq, Error)]
pub enum Halt {
    #[error("input fault")]
    Input,
    /// The file may have the lines of what came last or not. None of it was said.
    #[error("keep fault")]
    Keep,
    /// What was kept last may have been said or not.
    #[error("output fault")]
    Output,
    /// The file would have more bytes than are read again. (Or 2^64 lines came.)
    #[error("keep full")]
    Full,
    #[error("want of memory")]
    Want,
}

impl From<LineAnswer> for Halt {
    ghost use Rattle.std.specs.Prelude.{◌≡◌};
    ghost use Rattle.stations.specs.Going.{halt_of_line};

    ghost from_gives = { λ refused halt. halt ≡ halt_of_line refused };

    fn from(refused: LineAnswer) -> Halt {
        match refused {
            LineAnswer::Failed => Halt::Input,
            LineAnswer::Want => Halt::Want,
        }
    }
}

impl From<TakeRefusal> for Halt {
    ghost use Rattle.std.specs.Prelude.{◌≡◌};
    ghost use Rattle.stations.specs.Going.{halt_of_take};

    ghost from_gives = { λ refused halt. halt ≡ halt_of_take refused };

    fn from(refused: TakeRefusal) -> Halt {
        match refused {
            TakeRefusal::Full => Halt::Full,
            TakeRefusal::Want => Halt::Want,
        }
    }
}

impl From<Want> for Halt {
    ghost use Rattle.std.specs.Prelude.{◌≡◌};
    ghost use Rattle.stations.specs.declared.living.Halt.TheVariants.{Want as WantHalt};

    ghost from_gives = { λ _ halt. halt ≡ WantHalt };

    fn from(_refused: Want) -> Halt {
        Halt::Want
    }
}

impl From<ReleaseAnswer> for Halt {
    ghost use Rattle.std.specs.Prelude.{◌≡◌};
    ghost use Rattle.stations.specs.Going.{halt_of_release};

    ghost from_gives = { λ refused halt. halt ≡ halt_of_release refused };

    fn from(refused: ReleaseAnswer) -> Halt {
        match refused {
            ReleaseAnswer::NotKept => Halt::Keep,
            ReleaseAnswer::NotPut => Halt::Output,
            ReleaseAnswer::Want => Halt::Want,
        }
    }
}

/// Starts, and lives until the input ends. Lines that came together are kept together, and their words are put out behind that. Whatever
/// happens, nothing is said that isn't kept; where the input ended, all that came is answered and kept. The station is of no
/// use afterwards.
pub fn live<L: Lines, F: KeptFile, S: Sink>(
    station: &mut Station<'_>,
    lines: &mut L,
    file: &mut F,
    sink: &mut S,
) -> Result<(), Halt>
    requires ready { IsReady station.old }
    requires held { IsHeldWhole (contents_in station.old.so_far) (list_of station.old) (F.held file.old) }
    ensures lived { HasLived (origin station.old (F.held file.old) (S.told sink.old)) MOST_LINE (L.waiting lines.old) (F.held file.new) (S.told sink.new) }
    ensures answered { OnOk result (HasAnsweredAll (origin station.old (F.held file.old) (S.told sink.old)) MOST_LINE (L.waiting lines.old) (F.held file.new) (S.told sink.new)) }
    ensures input { IsErrOf result Halt.Input → HasRisen (L.faults lines.old) (L.faults lines.new) }
    ensures keep { IsErrOf result Halt.Keep → HasRisen (F.faults file.old) (F.faults file.new) }
    ensures output { IsErrOf result Halt.Output → HasRisen (S.faults sink.old) (S.faults sink.new) }
    ensures full { IsErrOf result Halt.Full → IsFull (origin station.old (F.held file.old) (S.told sink.old)) MOST_LINE (L.waiting lines.old) }
{
    let mut batch = Batch::new(station.so_far.alloc);
    start_life(station, &mut batch, file, sink)?;
    for _turn in 0..u64::MAX {
        let is_ended = take_next(station, &mut batch, lines)?;
        release_if(is_due(lines, is_ended), &mut batch, file, sink)?;
        if is_ended {
            return Ok(());
        }
    }
    Err(Halt::Full)
}

/// Starts: what it tells then, and the entry where it did nothing before, is kept and put out at once.
fn start_life<F: KeptFile, S: Sink>(
    station: &mut Station<'_>,
    batch: &mut Batch,
    file: &mut F,
    sink: &mut S,
) -> Result<(), Halt>
    requires ready { IsReady station.old }
    requires held { IsHeldWhole (contents_in station.old.so_far) (list_of station.old) (F.held file.old) }
    requires none { batch.old ≡ none_waits }
    ensures going { OnOk result (IsGoing (origin station.old (F.held file.old) (S.told sink.old)) (Start ∷ []) station.new batch.new (F.held file.new) (S.told sink.new)) }
    ensures lived { (room : ℕ) (waiting : Option (List ℕ)) → HasLived (origin station.old (F.held file.old) (S.told sink.old)) room waiting (F.held file.new) (S.told sink.new) }
    ensures counted { OnOk result ((F.faults file.new ≡ F.faults file.old) × (S.faults sink.new ≡ S.faults sink.old)) }
    ensures keep { IsErrOf result Halt.Keep → HasRisen (F.faults file.old) (F.faults file.new) }
    ensures output { IsErrOf result Halt.Output → HasRisen (S.faults sink.old) (S.faults sink.new) }
    ensures others { result ≢ Err Halt.Input }
    ensures full { IsErrOf result Halt.Full → 2 ^ 32 ≤ length (kept_file (contents_in station.old.so_far) (list_after station.old Start)) }
{
    station.start(batch)?;
    release_if(true, batch, file, sink)?;
    Ok(())
}

/// What came, as what is asked; nothing at the end.
fn came_ask(alloc: Global, came: Came) -> Result<Option<Ask>, Want>
    ensures asked { IfOk result (λ ask. option_map asked_by ask ≡ came_asked came) }
    ensures given { IfOk result (λ ask. IfSome ask (λ it. IsGivenAt it)) }
{
    match came {
        Came::Line(line) => Ok(Some(line_ask(alloc, line.as_slice())?)),
        Came::TooLong | Came::Unended => Ok(Some(Ask::Unclear)),
        Came::End => Ok(None),
    }
}

/// Takes what comes next, and tells whether the input ended.
fn take_next<L: Lines>(
    station: &mut Station<'_>,
    batch: &mut Batch,
    lines: &mut L,
) -> Result<bool, Halt>
    requires { IsReady station.old }
    ensures went { IfOk result (λ is_ended. Goes MOST_LINE (L.waiting lines.old) station.old batch.old is_ended (L.waiting lines.new) station.new batch.new) }
    ensures counted { OnOk result (L.faults lines.new ≡ L.faults lines.old) }
    ensures input { IsErrOf result Halt.Input → HasRisen (L.faults lines.old) (L.faults lines.new) }
    ensures others { (result ≢ Err Halt.Keep) × (result ≢ Err Halt.Output) }
    ensures full { IsErrOf result Halt.Full → Overfills MOST_LINE (L.waiting lines.old) station.old (L.waiting lines.new) }
{
    let came = lines.next_line(MOST_LINE)?;
    match came_ask(station.so_far.alloc, came)? {
        Some(ask) => {
            station.take(batch, ask)?;
            Ok(false)
        }
        None => Ok(true),
    }
}

/// Whether what waits is to be kept and put out: before the input is waited for, and at its end.
fn is_due<L: Lines>(lines: &L, is_ended: bool) -> bool
    ensures { is_ended ≡ true → result ≡ true }
{
    is_ended || !lines.is_line_ahead()
}

/// Keeps and puts out what waits, where that is due.
fn release_if<F: KeptFile, S: Sink>(
    is_due: bool,
    batch: &mut Batch,
    file: &mut F,
    sink: &mut S,
) -> Result<(), Halt>
    ensures going { OnOk result ((o : Origin) (asked : List Asked) (s : StationWord) → IsGoing o asked s batch.old (F.held file.old) (S.told sink.old)
        → IsGoing o asked s batch.new (F.held file.new) (S.told sink.new)) }
    ensures lived { OnErr result ((o : Origin) (asked : List Asked) (s : StationWord) → IsGoing o asked s batch.old (F.held file.old) (S.told sink.old)
        → IsLifeOf o asked (F.held file.new) (S.told sink.new)) }
    ensures emptied { OnOk result (is_due ≡ true → batch.new ≡ none_waits) }
    ensures counted { OnOk result ((F.faults file.new ≡ F.faults file.old) × (S.faults sink.new ≡ S.faults sink.old)) }
    ensures keep { IsErrOf result Halt.Keep → HasRisen (F.faults file.old) (F.faults file.new) }
    ensures output { IsErrOf result Halt.Output → HasRisen (S.faults sink.old) (S.faults sink.new) }
    ensures others { (result ≢ Err Halt.Input) × (result ≢ Err Halt.Full) }
{
    answer_is_said();
    if is_due {
        batch.release(file, sink)?;
    }
    Ok(())
}
