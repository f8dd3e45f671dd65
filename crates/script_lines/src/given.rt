ghost use Rattle.std.specs.Prelude.{◌≡◌, ◌++◌, ◌∷◌, [], map, take, drop, IfOk, OnOk};
ghost use Rattle.std.specs.Option.{MatchOption};
ghost use Rattle.scenario_file.specs.Reading.{contents, cast_of};
ghost use Rattle.scenario_file.specs.Valid.{IsScenario};
ghost use Rattle.script_lines.specs.Given.{own_words, say, where_same, plain_at, given_at, left_after, given, inputs_of};
ghost use Rattle.script_lines.specs.declared.step.Step.TheVariants.{Cry};

use crate::saying::{Saying, Words};
use crate::script::{Line, Script};
use crate::step::Step;
use plain_lists::{Copied, Want};
use play_words::Input;
use scenario_file::Scenario;
use std::alloc::Global;

/// A master's next word, and the words after it.
fn next_word(words: &[Saying], master: u32) -> Option<(&Saying, &[Saying])>
    ensures { MatchOption result (own_words master words.now ≡ []) (λ found. own_words master words.now ≡ found.0.now ∷ own_words master found.1.now) }
{
    let mut rest = words;
    while let Some((first, more)) = rest.split_first() {
        if first.speaker == master {
            return Some((first, more));
        }
        rest = more;
    }
    None
}

fn said(saying: &Saying) -> Result<Input, Want>
    ensures { IfOk result (λ input. input ≡ say saying.now) }
{
    Ok(Input::Say {
        to: saying.to.copy()?,
        word: saying.word.copy()?,
    })
}

/// Adds so many of a master's words to what it is given, and answers the words after them.
fn say_words<'a>(
    all: &mut Vec<Input>,
    words: &'a [Saying],
    master: u32,
    times: u64,
) -> Result<&'a [Saying], Want>
    ensures given { OnOk result (all.new.items ≡ all.old.items ++ map say (take times (own_words master words.now))) }
    ensures left { IfOk result (λ left. own_words master left.now ≡ drop times (own_words master words.now)) }
{
    let mut left = words;
    for _said in 0..times {
        let Some((saying, more)) = next_word(left, master) else {
            return Ok(left);
        };
        all.push(said(saying)?)?;
        left = more;
    }
    Ok(left)
}

/// The same for the actor of a cry, where that is this one.
fn cried<'a>(
    all: &mut Vec<Input>,
    words: &'a [Saying],
    actor: u32,
    master: u32,
    times: u64,
) -> Result<&'a [Saying], Want>
    ensures given { OnOk result (all.new.items ≡ all.old.items ++ given_at actor (Cry master times) (own_words actor words.now)) }
    ensures left { IfOk result (λ left. own_words actor left.now ≡ left_after actor (Cry master times) (own_words actor words.now)) }
{
    if master == actor {
        say_words(all, words, actor, times)
    } else {
        Ok(words)
    }
}

/// Adds an input of this actor.
fn push_own(all: &mut Vec<Input>, named: u32, actor: u32, input: Input) -> Result<(), Want>
    ensures { OnOk result (all.new.items ≡ all.old.items ++ where_same named actor input) }
{
    if named == actor {
        all.push(input)?;
    }
    Ok(())
}

/// Adds what a step other than a cry gives an actor.
fn push_plain(all: &mut Vec<Input>, step: Step, actor: u32) -> Result<(), Want>
    ensures { OnOk result (all.new.items ≡ all.old.items ++ plain_at actor step) }
{
    match step {
        Step::Command { screen, op } => push_own(all, screen, actor, Input::Command { op }),
        Step::Field {
            proxy,
            area,
            place,
            value,
        } => push_own(all, proxy, actor, Input::Field { area, place, value }),
        Step::Poll { proxy } => push_own(all, proxy, actor, Input::Poll),
        Step::Restart { actor: other } => push_own(all, other, actor, Input::Restart),
        _ => Ok(()),
    }
}

/// Adds what a step gives an actor that has these words left, and answers the words that are left after it.
fn give<'a>(
    all: &mut Vec<Input>,
    step: Step,
    actor: u32,
    words: &'a [Saying],
) -> Result<&'a [Saying], Want>
    ensures given { OnOk result (all.new.items ≡ all.old.items ++ given_at actor step (own_words actor words.now)) }
    ensures left { IfOk result (λ left. own_words actor left.now ≡ left_after actor step (own_words actor words.now)) }
{
    match step {
        Step::Cry { master, times } => cried(all, words, actor, master, times),
        _ => {
            push_plain(all, step, actor)?;
            Ok(words)
        }
    }
}

/// What lines give an actor.
fn given(alloc: Global, lines: &[Line], words: &[Saying], actor: u32) -> Result<Vec<Input>, Want>
    ensures { IfOk result (λ all. all.items ≡ given actor lines.now (own_words actor words.now)) }
{
    let mut all = Vec::new(alloc);
    let mut left = words;
    for line in lines {
        left = give(&mut all, line.step, actor, left)?;
    }
    Ok(all)
}

/// What each actor is given from outside in a run, in number order: its commands, its changes in the field, its polls, its
/// restarts and its words, as often as the script cries for them and there are words left. Other lines are passed over.
#[tactic(auto, unfolding(crate::specs::Given::inputs_of))]
pub fn inputs(
    alloc: Global,
    scenario: &Scenario,
    script: &Script,
    words: &Words,
) -> Result<Vec<Vec<Input>>, Want>
    requires { IsScenario (contents scenario.now) }
    ensures { IfOk result (λ lists. map (λ l. l.items) lists.items ≡ inputs_of (cast_of (contents scenario.now).settings scenario.now.plant) script.now words.now) }
{
    let mut lists = Vec::new(alloc);
    for actor in 0..scenario.cast().actors() {
        lists.push(given(alloc, script.lines(), words.sayings(), actor)?)?;
    }
    Ok(lists)
}
