//! Words of intruded masters in a play.
ghost use Rattle.std.specs.Prelude.{◌≡◌, ◌≤◌, ◌<◌, ◌+◌, ◌^◌, ◌∷◌, [], suc, false, true, drop, length, nat_lt, slice_get, slice_index_or, Some, IsTrue, IfOk, OnOk};
ghost use Rattle.std.specs.Option.{MatchOption};
ghost use Rattle.std.specs.List.{list_all};
ghost use Rattle.play_words.specs.Accepted.{is_accepted};
ghost use Rattle.scenario_file.specs.Reading.{contents};
ghost use Rattle.history_rules.specs.Events.{Cry};
ghost use Rattle.world_rules.specs.Scenarios.{masters_in};
ghost use Rattle.world_history.specs.State.{setup_in, spoken, after_word, with_entry};
ghost use Rattle.world_history.specs.KeptState.{KeptState, halted_in};
ghost use Rattle.script_lines.specs.Given.{own_words};
ghost use Rattle.script_laws.specs.Accepted.{is_intruded};
ghost use Rattle.run_scripts.specs.Making.{Making, most_entries, times_over, cries};
ghost use Rattle.run_scripts.specs.Playing.{IsWorld, given_in, IsMaking, IsPlaying, Goes};
ghost use Rattle.run_scripts.specs.Crying.{IsNextWord, HasCried};

use crate::acting::MOST_ENTRIES;
use crate::answer::StepRefusal;
use crate::playing::{Playing, World};
use crate::posting::cried_posts;
use plain_lists::{Bytes, Copied, Want};
use play_words::Word;
use script_lines::Saying;
use world_history::{Event, Kept};

/// Where the first word of a master stands, from a place in the list of all words on.
fn next_word(words: &[Saying], from: usize, master: u32) -> Option<usize>
    ensures { MatchOption result (own_words master (drop from words.now) ≡ []) (IsNextWord words.now from master) }
{
    for place in from..words.len() {
        if words[place].speaker == master {
            return Some(place);
        }
    }
    None
}

/// The word at a place, which isn't the last that a number of this size can name.
fn word_at(words: &[Saying], place: usize) -> &Saying
    requires { place < length words.now }
    ensures word { result.now ≡ slice_index_or words.now place result.now }
    ensures next { place + 1 < 2 ^ 64 }
{
    &words[place]
}

/// Adds the entry of a master's cry. The bytes that the word comes to; none where the master can't say it.
fn cry_word(
    world: &World<'_>,
    kept: &mut Kept,
    stamp: u64,
    word: &Word,
) -> Result<Option<Bytes>, Want>
    requires scenario { contents world.now.scenario.now ≡ kept.old.bench.world }
    requires master { kept.old.bench.actor < masters_in kept.old.bench.world }
    requires intruded { (setup_in kept.old.bench).intruded kept.old.bench.actor ≡ true }
    requires accepted { IsTrue (is_accepted word.now) }
    requires running { halted_in kept.old.bench ≡ false }
    requires later { list_all (λ e. nat_lt e.stamp stamp) kept.old.bench.list ≡ true }
    requires short { length kept.old.bench.list < 2 ^ 32 }
    ensures spoken { IfOk result (λ bytes. bytes ≡ spoken kept.old.bench word.now) }
    ensures cried { IfOk result (λ bytes. HasCried kept.old stamp word.now bytes kept.new) }
{
    let Some(bytes) = kept.speak(word)? else {
        return Ok(None);
    };
    let bytes = Bytes::from_vec(world.alloc, bytes)?;
    let event = Event::Cry {
        bytes: bytes.copy()?,
    };
    kept.act(world.scenario, stamp, event)?;
    Ok(Some(bytes))
}

/// A master's word at this place of the list of all words, where there is room for an entry.
fn say(
    world: &World<'_>,
    playing: &mut Playing,
    master: u32,
    place: usize,
) -> Result<(), StepRefusal>
    requires world { IsWorld world.now }
    requires playing { IsPlaying (given_in world.now) playing.old }
    requires master { is_intruded (contents world.now.scenario.now) master ≡ true }
    requires room { playing.old.entries < most_entries }
    requires next { IsNextWord world.now.words.now (slice_index_or playing.old.said.items master 0) master place }
    ensures { (m : Making) → IsMaking (given_in world.now) m playing.old
        → Goes (given_in world.now) result (cries (given_in world.now) master m) playing.new }
{
    let saying = word_at(world.words, place);
    let stamp = playing.entries;
    let kept = &mut playing.kept[master as usize];
    let Some(bytes) = cry_word(world, kept, stamp, &saying.word)? else {
        return Err(StepRefusal::NoFrame);
    };
    let posts = cried_posts(world, master, saying.to.as_slice(), stamp, bytes.as_slice())?;
    playing.mail.post(&posts, true)?;
    playing.said[master as usize] = place + 1;
    playing.entries = stamp + 1;
    Ok(())
}

/// A master's next word.
fn cry(world: &World<'_>, playing: &mut Playing, master: u32) -> Result<(), StepRefusal>
    requires world { IsWorld world.now }
    requires playing { IsPlaying (given_in world.now) playing.old }
    requires master { is_intruded (contents world.now.scenario.now) master ≡ true }
    ensures { (m : Making) → IsMaking (given_in world.now) m playing.old
        → Goes (given_in world.now) result (cries (given_in world.now) master m) playing.new }
{
    let from = playing.said[master as usize];
    let Some(place) = next_word(world.words, from, master) else {
        return Err(StepRefusal::NoFrame);
    };
    if playing.entries >= MOST_ENTRIES {
        return Err(StepRefusal::TooMany);
    }
    say(world, playing, master, place)
}

/// So many of a master's next words.
pub(crate) fn cry_times(
    world: &World<'_>,
    playing: &mut Playing,
    master: u32,
    times: u64,
) -> Result<(), StepRefusal>
    requires world { IsWorld world.now }
    requires playing { IsPlaying (given_in world.now) playing.old }
    requires master { is_intruded (contents world.now.scenario.now) master ≡ true }
    ensures { (m : Making) → IsMaking (given_in world.now) m playing.old
        → Goes (given_in world.now) result (times_over times (cries (given_in world.now) master) m) playing.new }
{
    for _said in 0..times {
        cry(world, playing, master)?;
    }
    Ok(())
}
