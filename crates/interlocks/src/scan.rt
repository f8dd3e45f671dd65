ghost use Rattle.std.specs.Prelude.{◌≡◌, ◌≤◌, ◌<◌, ◌+◌, ◌^◌, length, IfOk, IfErr};
ghost use Rattle.interlocks.specs.Answers.{Answers, AnswersTree, Refuses};
ghost use Rattle.interlocks.specs.Reading.{Names, read_rule, taken, taken_before, ended, here};
ghost use Rattle.interlocks.specs.Tokens.{Piece};

use crate::reader::{MOST_BYTES, State, finish, step};
use crate::refusal::{RuleRefusal, TokenRefusal};
use crate::token::continues;
use crate::tree::Tree;
use alarm_rules::Alarms;
use point_table::Points;
use std::alloc::Global;

/// The state after a token, which has to end within the bytes that a text may have.
#[tactic(auto, unfolding(crate::specs::Reading::taken))]
fn take(
    state: State,
    text: &[u8],
    place: usize,
    points: &Points,
    alarms: &Alarms,
) -> Result<State, RuleRefusal>
    requires { place + length text.now < 2 ^ 64 }
    ensures { Answers result (taken (record { points = points.now; alarms = alarms.now }) state (record { place = place; text = text.now })) }
{
    if place + text.len() > MOST_BYTES {
        return Err(RuleRefusal::BadRule {
            place: place as u64,
        });
    }
    match step(state, text, place as u64, points, alarms) {
        Ok(next) => Ok(next),
        Err(TokenRefusal::Misplaced) => Err(RuleRefusal::BadRule {
            place: place as u64,
        }),
        Err(TokenRefusal::Want) => Err(RuleRefusal::Want),
    }
}

/// The state after the token of these bytes, where there are any. They end before `end`.
fn take_before(
    state: State,
    text: &[u8],
    end: usize,
    points: &Points,
    alarms: &Alarms,
) -> Result<State, RuleRefusal>
    requires { length text.now ≤ end }
    ensures { Answers result (taken_before (record { points = points.now; alarms = alarms.now }) state text.now end) }
{
    if text.is_empty() {
        return Ok(state);
    }
    take(state, text, end - text.len(), points, alarms)
}

/// Goes over one byte: the state, and where the bytes of the present token begin.
fn advance(
    state: State,
    text: &[u8],
    start: usize,
    place: usize,
    points: &Points,
    alarms: &Alarms,
) -> Result<(State, usize), RuleRefusal>
    requires order { start ≤ place }
    requires within { place < length text.now }
    ensures ok { IfOk result (λ next. (next.1 ≤ place + 1) × (here (record { points = points.now; alarms = alarms.now }) text.now next.0 next.1 (place + 1) ≡ here (record { points = points.now; alarms = alarms.now }) text.now state start place)) }
    ensures err { IfErr result (λ e. Refuses e (here (record { points = points.now; alarms = alarms.now }) text.now state start place)) }
{
    let byte = text[place];
    if continues(&text[start..place], byte) {
        return Ok((state, start));
    }
    match take_before(state, &text[start..place], place, points, alarms) {
        Ok(next) => {
            if byte == b' ' {
                Ok((next, place + 1))
            } else {
                Ok((next, place))
            }
        }
        Err(refused) => Err(refused),
    }
}

/// The tree of the rule that a text spells.
pub fn read_tree(
    alloc: Global,
    text: &[u8],
    points: &Points,
    alarms: &Alarms,
) -> Result<Tree, RuleRefusal>
    ensures { AnswersTree result (read_rule (record { points = points.now; alarms = alarms.now }) text.now) }
{
    let mut state = State::start(alloc);
    let mut start = 0;
    for place in 0..text.len() {
        match advance(state, text, start, place, points, alarms) {
            Ok((next, begun)) => {
                state = next;
                start = begun;
            }
            Err(refused) => return Err(refused),
        }
    }
    match take_before(state, &text[start..], text.len(), points, alarms) {
        Ok(last) => finish(last, text.len()),
        Err(refused) => Err(refused),
    }
}
