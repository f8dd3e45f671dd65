//! The readers by their words.
use crate::room::Room;
use crate::{answers, calls};
use anyhow::{Result, bail};
use made_inputs::draws::Draws;
use made_inputs::entries::entry;
use made_inputs::mutations::change;
use made_inputs::{modbus, texts};
use std::sync::Wait;
use std::thread::Threads;

/// A reader of bytes that others may have written.
#[derive(Clone, Copy)]
pub enum Reader {
    Frame,
    Check,
    Entry,
    Request,
    Reply,
    Scenario,
    Rule,
    Script,
    Sayings,
    History,
    Parts,
    Call,
}

impl Reader {
    pub const ALL: [Reader; 12] = [
        Reader::Frame,
        Reader::Check,
        Reader::Entry,
        Reader::Request,
        Reader::Reply,
        Reader::Scenario,
        Reader::Rule,
        Reader::Script,
        Reader::Sayings,
        Reader::History,
        Reader::Parts,
        Reader::Call,
    ];

    pub fn word(self) -> &'static str {
        match self {
            Reader::Frame => "frame",
            Reader::Check => "check",
            Reader::Entry => "entry",
            Reader::Request => "request",
            Reader::Reply => "reply",
            Reader::Scenario => "scenario",
            Reader::Rule => "rule",
            Reader::Script => "script",
            Reader::Sayings => "words",
            Reader::History => "history",
            Reader::Parts => "parts",
            Reader::Call => "call",
        }
    }

    pub fn of_word(word: &str) -> Result<Reader> {
        for reader in Reader::ALL {
            if reader.word() == word {
                return Ok(reader);
            }
        }
        bail!("there is no reader {word}")
    }

    /// An input from the reader's grammar, every third of them changed at a few places.
    pub fn input(self, room: &Room, draws: &mut Draws) -> Result<Vec<u8>> {
        let mut input = self.made(room, draws)?;
        if draws.one_in(3) {
            change(draws, &mut input)?;
        }
        Ok(input)
    }

    fn made(self, room: &Room, draws: &mut Draws) -> Result<Vec<u8>> {
        let alloc = room.alloc;
        let text = match self {
            Reader::Frame => return room.unsigned.frame(draws),
            Reader::Check => return room.signed.frame(draws),
            Reader::Entry => return entry(alloc, &room.signed, draws),
            Reader::Request => return modbus::request(alloc, draws),
            Reader::Reply => return modbus::reply(alloc, draws),
            Reader::Scenario => texts::scenario(alloc, draws)?,
            Reader::Rule => texts::rule(alloc, draws)?,
            Reader::Script => texts::script(alloc, draws)?,
            Reader::Sayings => texts::sayings(alloc, draws)?,
            Reader::History => texts::history(alloc, draws, room.entries.as_str())?,
            Reader::Parts => texts::parts(alloc, draws)?,
            Reader::Call => return made_inputs::calls::call(&room.parts(), draws),
        };
        Ok(text.into_bytes())
    }

    /// What the reader answers: `ok`, or the fault and where it is.
    pub fn answer<R: Threads + Wait + Sync>(
        self,
        rt: &R,
        room: &Room,
        input: &[u8],
    ) -> Result<String> {
        let alloc = room.alloc;
        match self {
            Reader::Frame => answers::frame_answer(alloc, input),
            Reader::Check => answers::check_answer(alloc, room, input),
            Reader::Entry => answers::entry_answer(alloc, room, input),
            Reader::Request => answers::request_answer(alloc, input),
            Reader::Reply => answers::reply_answer(alloc, input),
            Reader::Scenario => answers::scenario_answer(alloc, input),
            Reader::Rule => answers::rule_answer(alloc, room, input),
            Reader::Script => answers::script_answer(alloc, input),
            Reader::Sayings => answers::sayings_answer(alloc, input),
            Reader::History => answers::history_answer(alloc, input),
            Reader::Parts => answers::parts_answer(alloc, input),
            Reader::Call => calls::answer(rt, alloc, input),
        }
    }
}
