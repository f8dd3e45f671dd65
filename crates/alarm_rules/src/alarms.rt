ghost use Rattle.std.specs.Prelude.{◌≡◌, ◌↔◌, ◌≤◌, ◌<◌, ◌+◌, length, OnOk, OnErr, IfOk, IfSome, IsOk, slice_get, slice_set, Some, None, true, false, map};
ghost use Rattle.alarm_rules.specs.Board.{change, quiet, alarm_named, seen, state_after};

use crate::alarm::{AlarmRule, AlarmState};
use plain_lists::{Copied, Items, Want};
use std::alloc::{AllocError, Global};
use std::marker::Model;
use thiserror::Error;

/// What a value did to an alarm, by the alarm's number.
#[derive(Clone, Copy, Debug, PartialEq, Eq)]
pub enum Change {
    Raised { alarm: u32 },
    Cleared { alarm: u32 },
}

/// There is no such alarm, or it is not raised.
#[derive(Clone, Copy, Debug, PartialEq, Eq, Error)]
#[error("there is no such alarm, or it is not raised")]
pub struct NoAlarm;

/// The alarms of a plant and their states.
pub struct Alarms {
    alloc: Global,
    rules: Items<AlarmRule>,
    states: Vec<AlarmState, Global>,
}

// Taken apart here once, so that no crate above proves it again.
impl Drop for Alarms {
    fn drop(self) {
        let Alarms {
            alloc: _,
            rules: _,
            states: _,
        } = self;
    }
}

impl Model for Alarms {
    ghost use Rattle.std.specs.Prelude.{◌≤◌, ◌≡◌, length};
    ghost use Rattle.alarm_rules.specs.Board.{Board};

    ghost Value = { Board };

    ghost view = { λ board. record { rules = board.rules; states = board.states.items } };

    ghost invariant = { λ board. (length board.rules ≤ 256) × (length board.states.items ≡ length board.rules) };
}

impl Alarms {
    ghost use Rattle.alarm_rules.specs.Board.{Board, quiet, changes, seen, is_raised_at, alarm_named};
    ghost use Rattle.alarm_rules.specs.declared.alarm.AlarmState.TheVariants.{Acknowledged};

    /// The most alarms that a plant may have.
    pub const MOST: usize = 256;

    /// The alarms, none of them raised.
    pub fn make(alloc: Global, rules: &[AlarmRule]) -> Result<Alarms, Want>
        requires { length rules.now ≤ 256 }
        ensures { IfOk result (λ made. made ≡ record { rules = rules.now; states = quiet rules.now }) }
    {
        let mut copies = Vec::with_capacity(alloc, rules.len())?;
        for rule in rules {
            copies.push(rule.copy()?)?;
        }
        let states = quiet_states(alloc, rules)?;
        Ok(Alarms {
            alloc,
            rules: Items::from_vec(alloc, copies),
            states,
        })
    }

    /// Looks at all alarms of a point that has taken a value, in number order, and tells what changed.
    pub fn see(&mut self, point: u32, value: i64) -> Result<Vec<Change>, Want>
        ensures changes { IfOk result (λ told. told.items ≡ changes point value 0 self.old.rules self.old.states) }
        ensures ok { OnOk result (self.new ≡ record self.old { states = seen point value self.old.rules self.old.states }) }
        ensures err { OnErr result (self.new ≡ self.old) }
    {
        let told = self.changes(point, value)?;
        self.settle(point, value);
        Ok(told)
    }

    /// Gives each alarm of a point its state after a value, which takes no memory.
    pub fn settle(&mut self, point: u32, value: i64)
        ensures { self.new ≡ record self.old { states = seen point value self.old.rules self.old.states } }
    {
        settle(self.rules.as_slice(), &mut self.states, point, value);
    }

    /// What a value of a point changes. The alarms stay as they are.
    pub fn changes(&self, point: u32, value: i64) -> Result<Vec<Change>, Want>
        ensures { IfOk result (λ told. told.items ≡ changes point value 0 self.now.rules self.now.states) }
    {
        let mut told = Vec::new(self.alloc);
        for (number, rule) in self.rules.as_slice().iter().enumerate() {
            let state = self.states[number];
            if let Some(change) = change_of(rule, point, value, number as u32, state) {
                told.push(change)?;
            }
        }
        Ok(told)
    }

    /// Marks a raised alarm as acknowledged. One that is acknowledged already stays so.
    pub fn acknowledge(&mut self, alarm: u32) -> Result<(), NoAlarm>
        ensures found { IsOk result ↔ (is_raised_at self.old.states alarm ≡ true) }
        ensures ok { OnOk result (self.new ≡ record self.old { states = slice_set self.old.states alarm Acknowledged }) }
        ensures err { OnErr result (self.new ≡ self.old) }
    {
        if !self.raised(alarm) {
            return Err(NoAlarm);
        }
        self.states[alarm as usize] = AlarmState::Acknowledged;
        Ok(())
    }

    /// Whether an alarm is there and raised.
    pub fn raised(&self, alarm: u32) -> bool
        ensures { result ≡ is_raised_at self.now.states alarm }
    {
        match self.states.get(alarm as usize) {
            Some(state) => state.is_raised(),
            None => false,
        }
    }

    /// The number of the first alarm of that name. None exactly where there is none.
    pub fn find(&self, name: &str) -> Option<u32>
        ensures { result ≡ alarm_named self.now.rules name.now }
    {
        self.find_bytes(name.as_bytes())
    }

    /// The same for a name that is given as bytes.
    pub fn find_bytes(&self, name: &[u8]) -> Option<u32>
        ensures { result ≡ alarm_named self.now.rules name.now }
    {
        let place = place_of(self.rules.as_slice(), name)?;
        Some(place as u32)
    }
}

/// What a value of a point changes at one alarm.
fn change_of(
    rule: &AlarmRule,
    point: u32,
    value: i64,
    number: u32,
    state: AlarmState,
) -> Option<Change>
    ensures { result ≡ change point value number rule.now state }
{
    if rule.point != point {
        return None;
    }
    match (state.is_raised(), rule.next_state(value, state).is_raised()) {
        (false, true) => Some(Change::Raised { alarm: number }),
        (true, false) => Some(Change::Cleared { alarm: number }),
        _ => None,
    }
}

/// The place of the first alarm of that name.
fn place_of(rules: &[AlarmRule], name: &[u8]) -> Option<usize>
    ensures place { result ≡ alarm_named rules.now name.now }
    ensures within { IfSome result (λ place. place < length rules.now) }
{
    rules
        .iter()
        .position(|rule| rule.name.as_str().as_bytes() == name)
}

/// As many states of a quiet alarm as there are rules.
fn quiet_states(alloc: Global, rules: &[AlarmRule]) -> Result<Vec<AlarmState>, AllocError>
    ensures { IfOk result (λ states. states.items ≡ quiet rules.now) }
{
    rules.iter().map(|_| AlarmState::Quiet).collect(alloc)
}

/// Gives each alarm of a point its state after a value.
fn settle(rules: &[AlarmRule], states: &mut [AlarmState], point: u32, value: i64)
    requires { length states.old ≡ length rules.now }
    ensures { states.new ≡ seen point value rules.now states.old }
{
    for (number, rule) in rules.iter().enumerate() {
        states[number] = state_after(rule, point, value, states[number]);
    }
}

/// The state of one alarm after a value of a point.
fn state_after(rule: &AlarmRule, point: u32, value: i64, state: AlarmState) -> AlarmState
    ensures { result ≡ state_after point value rule.now state }
{
    if rule.point == point {
        rule.next_state(value, state)
    } else {
        state
    }
}
