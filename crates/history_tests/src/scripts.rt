//! Plays for the tests to look at.
use message_types::Body;
use run_scripts::{PlayAnswer, play};
use scenario_file::Scenario;
use script_laws::laws::{read_lines_are_of_scenario, read_words_are_of_scenario};
use script_lines::{Script, Words};
use std::alloc::Global;
use std::test::Fail;
use world_history::{Entry, Kept};

/// What each scenario begins with: masters 0 to 3.
const BEGINNING: &str =
    "f = 1\nseed = \"0000000000000000000000000000000000000000000000000000000000000000\"\n";

/// The actors of a play, or where it stops, of a scenario with these other keys.
pub(crate) fn played(
    alloc: Global,
    keys: &str,
    script: &str,
    words: &str,
) -> Result<Result<Vec<Kept>, PlayAnswer>, Fail> {
    let mut text = String::from_str(alloc, BEGINNING)?;
    text.push_str(keys)?;
    let scenario = Scenario::read(alloc, text.as_bytes())?;
    let script = Script::read(alloc, script.as_bytes(), &scenario)?;
    let words = Words::read(alloc, words.as_bytes(), &scenario)?;
    read_lines_are_of_scenario();
    read_words_are_of_scenario();
    Ok(play(alloc, &scenario, &script, &words))
}

/// The last entry of an actor.
pub(crate) fn last_of(kept: &[Kept], actor: usize) -> Result<&Entry, Fail> {
    let Some(kept) = kept.get(actor) else {
        return Err("no such actor".into());
    };
    match kept.bench().list().last() {
        Some(entry) => Ok(entry),
        None => Err("nothing happened".into()),
    }
}

/// The only body of the last entry of an actor.
pub(crate) fn last_said(kept: &[Kept], actor: usize) -> Result<&Body, Fail> {
    let entry = last_of(kept, actor)?;
    match entry.said.as_slice() {
        [body] => Ok(body),
        _ => Err("not one body".into()),
    }
}
