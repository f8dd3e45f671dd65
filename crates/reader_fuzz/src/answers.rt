//! What each reader answers, as a text whose first word is `ok` or the fault.
use crate::room::{Room, scenario_text};
use anyhow::Result;
use checked_frames::{CheckRefusal, check};
use entry_texts::read_entry;
use interlocks::{Rule, RuleRefusal};
use message_forms::{FormRefusal, read_frame};
use modbus_forms::{ModbusRefusal, read_reply, read_request};
use part_lines::rebuilt_text;
use printed_history::read_history;
use scenario_file::Scenario;
use script_lines::{Script, Words};
use std::alloc::Global;

pub fn frame_answer(alloc: Global, bytes: &[u8]) -> Result<String> {
    match read_frame(alloc, bytes) {
        Ok(_) => ok(alloc),
        Err(refusal) => form_answer(alloc, refusal),
    }
}

/// What a ring's check says of the frame with these bytes, or `unread` where they are no frame's.
pub fn check_answer(alloc: Global, room: &Room, bytes: &[u8]) -> Result<String> {
    let Ok(frame) = read_frame(alloc, bytes) else {
        return text(alloc, "unread");
    };
    match check(alloc, &room.ring, frame) {
        Ok(_) => ok(alloc),
        Err(CheckRefusal::SignerUnknown { signer }) => {
            Ok(format!(in alloc; "SignerUnknown {signer}")?)
        }
        Err(CheckRefusal::Unsigned { part }) => Ok(format!(in alloc; "Unsigned {part}")?),
        Err(CheckRefusal::Misplaced { part }) => Ok(format!(in alloc; "Misplaced {part}")?),
        Err(CheckRefusal::Want) => text(alloc, "Want"),
    }
}

pub fn request_answer(alloc: Global, bytes: &[u8]) -> Result<String> {
    match read_request(alloc, bytes) {
        Ok(_) => ok(alloc),
        Err(refusal) => modbus_answer(alloc, refusal),
    }
}

pub fn reply_answer(alloc: Global, bytes: &[u8]) -> Result<String> {
    match read_reply(alloc, bytes) {
        Ok(_) => ok(alloc),
        Err(refusal) => modbus_answer(alloc, refusal),
    }
}

pub fn scenario_answer(alloc: Global, bytes: &[u8]) -> Result<String> {
    match Scenario::read(alloc, bytes) {
        Ok(_) => ok(alloc),
        Err(refusal) => Ok(refusal.to_string(alloc)?),
    }
}

/// What a reader of rules says over the points and alarms of a plant, or `untold` where the bytes are no text.
pub fn rule_answer(alloc: Global, room: &Room, bytes: &[u8]) -> Result<String> {
    let Ok(rule) = std::str::from_utf8(bytes) else {
        return text(alloc, "untold");
    };
    match Rule::read(alloc, rule, &room.points, &room.alarms) {
        Ok(_) => ok(alloc),
        Err(RuleRefusal::BadRule { place }) => Ok(format!(in alloc; "BadRule {place}")?),
        Err(RuleRefusal::NoName { place }) => Ok(format!(in alloc; "NoName {place}")?),
        Err(RuleRefusal::Want) => text(alloc, "Want"),
    }
}

pub fn script_answer(alloc: Global, bytes: &[u8]) -> Result<String> {
    let scenario = Scenario::read(alloc, scenario_text().as_bytes())?;
    match Script::read(alloc, bytes, &scenario) {
        Ok(_) => ok(alloc),
        Err(refusal) => Ok(refusal.to_string(alloc)?),
    }
}

pub fn sayings_answer(alloc: Global, bytes: &[u8]) -> Result<String> {
    let scenario = Scenario::read(alloc, scenario_text().as_bytes())?;
    match Words::read(alloc, bytes, &scenario) {
        Ok(_) => ok(alloc),
        Err(refusal) => Ok(refusal.to_string(alloc)?),
    }
}

pub fn history_answer(alloc: Global, bytes: &[u8]) -> Result<String> {
    let scenario = Scenario::read(alloc, scenario_text().as_bytes())?;
    match read_history(alloc, &scenario, bytes) {
        Ok(_) => ok(alloc),
        Err(refusal) => Ok(refusal.to_string(alloc)?),
    }
}

/// What is read of a kept entry's bytes: `ok`, or `none`.
pub fn entry_answer(alloc: Global, room: &Room, bytes: &[u8]) -> Result<String> {
    match read_entry(alloc, &room.ring, bytes)? {
        Some(_) => ok(alloc),
        None => text(alloc, "none"),
    }
}

/// What is rebuilt of a text of parts: `ok`, or why there is nothing.
pub fn parts_answer(alloc: Global, bytes: &[u8]) -> Result<String> {
    let scenario = Scenario::read(alloc, scenario_text().as_bytes())?;
    match rebuilt_text(alloc, &scenario, bytes) {
        Ok(_) => ok(alloc),
        Err(fault) => Ok(fault.to_string(alloc)?),
    }
}

fn form_answer(alloc: Global, refusal: FormRefusal) -> Result<String> {
    let answer = match refusal {
        FormRefusal::Short { place } => format!(in alloc; "Short {place}")?,
        FormRefusal::Trailing { place } => format!(in alloc; "Trailing {place}")?,
        FormRefusal::UnknownKind { place } => format!(in alloc; "UnknownKind {place}")?,
        FormRefusal::TooMany { place } => format!(in alloc; "TooMany {place}")?,
        FormRefusal::BadOrder { place } => format!(in alloc; "BadOrder {place}")?,
        FormRefusal::TooLong { place } => format!(in alloc; "TooLong {place}")?,
        FormRefusal::Want => return text(alloc, "Want"),
    };
    Ok(answer)
}

fn modbus_answer(alloc: Global, refusal: ModbusRefusal) -> Result<String> {
    let word = match refusal {
        ModbusRefusal::Short => "Short",
        ModbusRefusal::Trailing => "Trailing",
        ModbusRefusal::BadProtocol => "BadProtocol",
        ModbusRefusal::BadLength => "BadLength",
        ModbusRefusal::Want => "Want",
    };
    text(alloc, word)
}

fn ok(alloc: Global) -> Result<String> {
    text(alloc, "ok")
}

fn text(alloc: Global, word: &str) -> Result<String> {
    Ok(String::from_str(alloc, word)?)
}
