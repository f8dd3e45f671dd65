//! The lines of what a station says.
ghost use Rattle.std.specs.Prelude.{◌≡◌, ◌≤◌, ◌++◌, true, OnOk, IsTrue, string_bytes};
ghost use Rattle.std.specs.List.{flat_map, list_all};
ghost use Rattle.scenario_file.specs.Actors.{actors_of};
ghost use Rattle.history_rules.specs.Setup.{stands};
ghost use Rattle.world_history.specs.Addressing.{IsClientFew};
ghost use Rattle.message_types.specs.Spelling.{has_spelling};
ghost use Rattle.printed_history.specs.Reading.{IsSoFar, contents_in, world_in};
ghost use Rattle.station_lives.specs.Saying.{names, more_names, word_line};
ghost use Rattle.stations.specs.Telling.{Tells};

use checked_frames::Checked;
use message_forms::write_frame;
use message_types::Frame;
use plain_lists::Want;
use printed_history::SoFar;
use run_lines::{put_actor, put_hex};
use scenario_file::Cast;
use station_files::Batch;
use std::alloc::Global;
use world_history::addressees;

/// Appends names, each behind a comma.
fn put_more(text: &mut String, cast: Cast, actors: &[u32]) -> Result<(), Want>
    requires { actors_of cast ≤ 26 }
    ensures { OnOk result (string_bytes text.new ≡ string_bytes text.old ++ more_names cast actors.now) }
{
    for actor in actors {
        text.push_str(",")?;
        put_actor(text, cast, *actor)?;
    }
    Ok(())
}

/// Appends names with commas between them, and a dash for none.
fn put_names(text: &mut String, cast: Cast, actors: &[u32]) -> Result<(), Want>
    requires { actors_of cast ≤ 26 }
    ensures { OnOk result (string_bytes text.new ≡ string_bytes text.old ++ names cast actors.now) }
{
    match actors {
        [] => {
            text.push_str("-")?;
            Ok(())
        }
        [first, rest @ ..] => {
            put_actor(text, cast, *first)?;
            put_more(text, cast, rest)
        }
    }
}

/// Appends the line of a frame that an actor says.
fn put_word(
    alloc: Global,
    text: &mut String,
    so_far: &SoFar<'_>,
    actor: u32,
    frame: &Frame,
) -> Result<(), Want>
    requires at_hand { IsSoFar so_far.now }
    requires spelled { IsTrue (has_spelling frame.now) }
    requires client { IsClientFew frame.now.body }
    ensures { OnOk result (string_bytes text.new ≡ string_bytes text.old ++ word_line (contents_in so_far.now) actor frame.now) }
{
    let to = addressees(alloc, &so_far.scenario.sizes, actor, &frame.body)?;
    let bytes = write_frame(alloc, frame)?;
    text.push_str("say ")?;
    put_names(text, so_far.company().cast(), to.as_slice())?;
    text.push_str(" ")?;
    put_hex(alloc, text, bytes.as_slice())?;
    text.push_str("\n")?;
    Ok(())
}

/// Adds a frame that an actor says to what is to be put out.
fn say_frame(
    alloc: Global,
    batch: &mut Batch,
    so_far: &SoFar<'_>,
    actor: u32,
    frame: &Checked,
) -> Result<(), Want>
    requires at_hand { IsSoFar so_far.now }
    requires stand { stands (world_in so_far.now) frame.now ≡ true }
    ensures { OnOk result (batch.new ≡ record batch.old { out = batch.old.out ++ word_line (contents_in so_far.now) actor frame.now; has_words = true }) }
{
    let mut text = String::new(alloc);
    put_word(alloc, &mut text, so_far, actor, frame.frame())?;
    batch.say(text.as_bytes())?;
    Ok(())
}

/// Adds the frames that an actor says at an entry to what is to be put out.
pub(crate) fn say_frames(
    alloc: Global,
    batch: &mut Batch,
    so_far: &SoFar<'_>,
    actor: u32,
    frames: &[Checked],
) -> Result<(), Want>
    requires at_hand { IsSoFar so_far.now }
    requires stand { list_all (stands (world_in so_far.now)) frames.now ≡ true }
    ensures { OnOk result (Tells (contents_in so_far.now) (flat_map (word_line (contents_in so_far.now) actor) frames.now) batch.old batch.new) }
{
    for frame in frames {
        say_frame(alloc, batch, so_far, actor, frame)?;
    }
    Ok(())
}
