//! What a station notes for its own machine: how far it is as it begins, and what an entry came to.
ghost use Rattle.std.specs.Prelude.{◌≡◌, ◌++◌, false, codes, decimal, OnOk, string_bytes};
ghost use Rattle.station_lives.specs.Saying.{note_line};
ghost use Rattle.station_rules.specs.Notes.{executed_note, lines_behind, notes_since, notice_note, reached, view_note, write_note};
ghost use Rattle.stations.specs.Marks.{reached_by};

use field_proxy::Write;
use message_types::{Notice, Update};
use plain_lists::Want;
use run_lines::{put_execution, put_notice, put_write};
use scenario_file::Cast;
use station_files::Batch;
use std::alloc::Global;
use world_history::Bench;

/// How far an actor has come: its view, and how many updates it executed, writes it made and notices it shows.
#[derive(Clone, Copy, Debug)]
pub struct Marks {
    pub view: u64,
    pub executed: usize,
    pub writes: usize,
    pub notices: usize,
}

/// How far the actor of a bench has come.
pub(crate) fn marks_of(bench: &Bench) -> Marks
    requires { bench.now.is_spent ≡ false }
    ensures { reached_by result ≡ reached bench.now }
{
    let view = bench.view();
    let executed = bench.executions().len();
    let writes = bench.writes().len();
    let notices = bench.board().len();
    Marks {
        view,
        executed,
        writes,
        notices,
    }
}

/// Appends the note of how many entries were made, and how many one-time keys are left.
fn put_begun(text: &mut String, entries: u64, left: u64) -> Result<(), Want>
    ensures { OnOk result (string_bytes text.new ≡ string_bytes text.old ++ note_line (codes "begun " ++ decimal entries ++ codes " left " ++ decimal left)) }
{
    write!(text, "note begun {entries} left {left}\n")?;
    Ok(())
}

fn put_view(text: &mut String, before: u64, now: u64) -> Result<(), Want>
    ensures { OnOk result (string_bytes text.new ≡ string_bytes text.old ++ view_note before now) }
{
    if before == now {
        return Ok(());
    }
    write!(text, "note view {now}\n")?;
    Ok(())
}

fn put_one_executed(text: &mut String, cast: Cast, number: u64, update: &Update) -> Result<(), Want>
    ensures { OnOk result (string_bytes text.new ≡ string_bytes text.old ++ executed_note cast number update.now) }
{
    text.push_str("note executed ")?;
    put_execution(text, cast, number, update)
}

fn put_executed(
    text: &mut String,
    cast: Cast,
    before: usize,
    executions: &[Update],
) -> Result<(), Want>
    ensures { OnOk result (string_bytes text.new ≡ string_bytes text.old ++ lines_behind (executed_note cast) before executions.now) }
{
    for place in before..executions.len() {
        put_one_executed(text, cast, place as u64 + 1, &executions[place])?;
    }
    Ok(())
}

fn put_one_write(text: &mut String, write: &Write) -> Result<(), Want>
    ensures { OnOk result (string_bytes text.new ≡ string_bytes text.old ++ write_note 0 write.now) }
{
    text.push_str("note write ")?;
    put_write(text, write)
}

fn put_writes(text: &mut String, before: usize, writes: &[Write]) -> Result<(), Want>
    ensures { OnOk result (string_bytes text.new ≡ string_bytes text.old ++ lines_behind write_note before writes.now) }
{
    for place in before..writes.len() {
        put_one_write(text, &writes[place])?;
    }
    Ok(())
}

fn put_one_notice(text: &mut String, number: u64, notice: &Notice) -> Result<(), Want>
    ensures { OnOk result (string_bytes text.new ≡ string_bytes text.old ++ notice_note number notice.now) }
{
    text.push_str("note notice ")?;
    put_notice(text, number, notice)
}

fn put_notices(text: &mut String, before: usize, notices: &[Notice]) -> Result<(), Want>
    ensures { OnOk result (string_bytes text.new ≡ string_bytes text.old ++ lines_behind notice_note before notices.now) }
{
    for place in before..notices.len() {
        put_one_notice(text, place as u64 + 1, &notices[place])?;
    }
    Ok(())
}

/// Appends the notes of what the actor of a bench came to since it was so far.
fn put_notes(text: &mut String, cast: Cast, since: Marks, bench: &Bench) -> Result<(), Want>
    requires { bench.now.is_spent ≡ false }
    ensures { OnOk result (string_bytes text.new ≡ string_bytes text.old ++ notes_since cast (reached_by since) bench.now) }
{
    put_view(text, since.view, bench.view())?;
    put_executed(text, cast, since.executed, bench.executions())?;
    put_writes(text, since.writes, bench.writes())?;
    put_notices(text, since.notices, bench.board())?;
    Ok(())
}

/// Adds the note of how many entries were made, and how many one-time keys are left, to what is to be put out.
pub(crate) fn note_begun(
    alloc: Global,
    batch: &mut Batch,
    entries: u64,
    left: u64,
) -> Result<(), Want>
    ensures { OnOk result (batch.new ≡ record batch.old { out = batch.old.out ++ note_line (codes "begun " ++ decimal entries ++ codes " left " ++ decimal left) }) }
{
    let mut text = String::new(alloc);
    put_begun(&mut text, entries, left)?;
    batch.note(text.as_bytes())?;
    Ok(())
}

/// Adds the notes of what the actor of a bench came to since it was so far to what is to be put out.
pub(crate) fn note_since(
    alloc: Global,
    batch: &mut Batch,
    cast: Cast,
    since: Marks,
    bench: &Bench,
) -> Result<(), Want>
    requires { bench.now.is_spent ≡ false }
    ensures { OnOk result (batch.new ≡ record batch.old { out = batch.old.out ++ notes_since cast (reached_by since) bench.now }) }
{
    let mut text = String::new(alloc);
    put_notes(&mut text, cast, since, bench)?;
    batch.note(text.as_bytes())?;
    Ok(())
}
