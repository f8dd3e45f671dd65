//! The events that inputs become.
ghost use Rattle.std.specs.Prelude.{◌≡◌, ◌<◌, [], true, false, Some, if◌then◌else◌, IsTrue, IfOk, OnOk};
ghost use Rattle.std.specs.Option.{option_map};
ghost use Rattle.play_words.specs.Accepted.{is_accepted};
ghost use Rattle.history_rules.specs.Events.{Cry};
ghost use Rattle.world_entries.specs.Entries.{event_of};
ghost use Rattle.world_rules.specs.Scenarios.{masters_in};
ghost use Rattle.world_history.specs.State.{setup_in, spoken, after_word};
ghost use Rattle.station_turns.specs.Pace.{fits_input, event_given, after_input};
ghost use Rattle.station_turns.specs.Turns.{named};

use plain_lists::{Bytes, Copied, Vector, Want};
use play_words::{Input, Word};
use std::alloc::Global;
use world_entries::Event;
use world_history::Kept;

/// The cry of a word. None where the master can't say it.
fn say(alloc: Global, kept: &mut Kept, word: &Word) -> Result<Option<Event>, Want>
    requires master { kept.old.bench.actor < masters_in kept.old.bench.world }
    requires intruded { (setup_in kept.old.bench).intruded kept.old.bench.actor ≡ true }
    requires accepted { IsTrue (is_accepted word.now) }
    ensures event { IfOk result (λ event. option_map event_of event ≡ option_map Cry (spoken kept.old.bench word.now)) }
    ensures bench { OnOk result (kept.new.bench ≡ after_word kept.old.bench word.now) }
    ensures works { OnOk result (kept.new.is_spent ≡ false) }
{
    let Some(bytes) = kept.speak(word)? else {
        return Ok(None);
    };
    let bytes = Bytes::from_vec(alloc, bytes)?;
    Ok(Some(Event::Cry { bytes }))
}

/// The event that an input becomes. None of a word that the master can't say.
pub(crate) fn event_given(
    alloc: Global,
    kept: &mut Kept,
    input: &Input,
) -> Result<Option<Event>, Want>
    requires works { kept.old.is_spent ≡ false }
    requires fits { fits_input kept.old.bench.world kept.old.bench.actor input.now ≡ true }
    ensures event { IfOk result (λ event. option_map event_of event ≡ event_given kept.old.bench input.now) }
    ensures bench { OnOk result (kept.new.bench ≡ after_input kept.old.bench input.now) }
    ensures works { OnOk result (kept.new.is_spent ≡ false) }
{
    match input {
        Input::Command { op } => Ok(Some(Event::Command { op: *op })),
        Input::Field { area, place, value } => Ok(Some(Event::Field {
            area: *area,
            place: *place,
            value: *value,
        })),
        Input::Poll => Ok(Some(Event::Poll)),
        Input::Say { to: _, word } => say(alloc, kept, word),
        Input::Restart => Ok(Some(Event::Restart)),
    }
}

/// To whom a word goes. Of another input nobody.
fn named(alloc: Global, input: &Input) -> Result<Vector, Want>
    ensures { IfOk result (λ to. to ≡ named (Some input.now)) }
{
    match input {
        Input::Say { to, word: _ } => to.copy(),
        _ => Ok(Vector::new(alloc)),
    }
}

/// To whom a word goes that was cried.
pub(crate) fn named_if(alloc: Global, cries: bool, input: &Input) -> Result<Vector, Want>
    ensures { IfOk result (λ to. to ≡ (if cries then named (Some input.now) else [])) }
{
    if cries {
        named(alloc, input)
    } else {
        Ok(Vector::new(alloc))
    }
}
