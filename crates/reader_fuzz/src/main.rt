//! Gives each reader of foreign bytes many inputs, and prints how often it answered what.
//!
//! `READER SEED COUNT` makes COUNT inputs from SEED, by the reader's grammar and by changes of what that makes, and prints a
//! line for each answer. Behind it `show` prints each input with its answer in place of the counts, both in hex. READER is `all`,
//! or `frame`, `check`, `entry`, `request`, `reply`, `scenario`, `rule`, `script`, `words`, `history`, `parts` or `call`, which
//! is a whole call of the main program with its files.
#![tactic(auto)]

mod answers;
mod calls;
mod counts;
mod readers;
mod room;

use anyhow::{Context, Result};
use counts::Counts;
use made_inputs::draws::Draws;
use readers::Reader;
use room::Room;
use std::env;
use std::rt::Env;
use std::sync::Wait;
use std::thread::Threads;

/// From which seed to make how many inputs.
#[derive(Clone, Copy)]
struct Inputs {
    seed: u64,
    count: u64,
}

// Prints each input with its answer.
fn show<R: AllocGlobal + Print + Threads + Wait + Sync>(
    rt: &R,
    room: &Room,
    reader: Reader,
    inputs: Inputs,
) -> Result<()> {
    for number in 0..inputs.count {
        let mut draws = Draws::of_input(inputs.seed, number);
        let input = reader.input(room, &mut draws)?;
        let answer = reader.answer(rt, room, &input)?;
        let input = hex::encode(rt.alloc(), &input)?;
        let answer = hex::encode(rt.alloc(), answer.as_bytes())?;
        println!(rt; "{input} {answer}")?;
    }
    Ok(())
}

// Prints how often there was which answer.
fn count<R: AllocGlobal + Print + Threads + Wait + Sync>(
    rt: &R,
    room: &Room,
    reader: Reader,
    inputs: Inputs,
) -> Result<()> {
    let mut counts = Counts::new(rt.alloc());
    for number in 0..inputs.count {
        let mut draws = Draws::of_input(inputs.seed, number);
        let input = reader.input(room, &mut draws)?;
        let answer = reader.answer(rt, room, &input)?;
        counts.add(answer.as_str())?;
    }
    counts.print(rt, reader.word())
}

fn run<R: Env + AllocGlobal + Print + Threads + Wait + Sync>(rt: &R) -> Result<()> {
    let mut words = env::args(rt)?.skip(1);
    let word = words.next().context("a reader")?;
    let seed = words.next().context("a seed")?;
    let seed = seed.parse::<u64>().context("a seed")?;
    let number = words.next().context("a number")?;
    let number = number.parse::<u64>().context("a number")?;
    let inputs = Inputs {
        seed,
        count: number,
    };
    let room = Room::make(rt, rt.alloc())?;
    if word.as_str() == "all" {
        for reader in Reader::ALL {
            count(rt, &room, reader, inputs)?;
        }
        return Ok(());
    }
    let reader = Reader::of_word(word.as_str())?;
    if words.next().is_some() {
        return show(rt, &room, reader, inputs);
    }
    count(rt, &room, reader, inputs)
}

fn main(rt: HostRuntime) -> Result<()> {
    run(&rt)
}
