//! Times HSS signatures, and says what another program's answers are compared with.
//!
//! `make N` makes N keys, `sign N` signs N messages in order, `check N` verifies one signature N
//! times, and `known N` does so with its signed keys remembered: each with three levels of height 5
//! and w = 4, printing counts alone. `give LEVELS` prints lines `PUBLIC MESSAGE SIGNATURE`, in hex,
//! one for each w, for another program to verify.
//!
//! `compare SIGNATURES SCENARIOS` says of each such line of the first file whether its signature
//! verifies, and then of each scenario of the second, which a line `----` ends, what it holds or why
//! it is refused.
#![tactic(auto)]

mod lines;
mod scenarios;
mod signatures;

use anyhow::{Context, Result, bail};
use hash_signatures::{Anew, KnownKeys, Ots};
use scenarios::print_answers;
use signatures::{check_many, give, make_many, sign_many, verify_file};
use std::env;
use std::rt::{Env, Files};

fn run<R: Files + Env + AllocGlobal + Print>(rt: &R) -> Result<()> {
    let mut words = env::args(rt)?;
    let _program = words.next();
    let command = words.next().context("a command")?;
    let word = words.next().context("a number or a file")?;
    if command.as_str() == "compare" {
        let scenarios = words.next().context("a file of scenarios")?;
        verify_file(rt, word.as_str())?;
        return print_answers(rt, scenarios.as_str());
    }
    let count = word.parse::<u64>().context("a number")?;
    match command.as_str() {
        "make" => println!(rt; "{}", make_many(rt.alloc(), count)?)?,
        "sign" => println!(rt; "{}", sign_many(rt.alloc(), count)?)?,
        "check" => println!(rt; "{}", check_many(rt.alloc(), &mut Anew, count)?)?,
        "known" => {
            let mut known = KnownKeys::new(rt.alloc());
            println!(rt; "{}", check_many(rt.alloc(), &mut known, count)?)?
        }
        "give" => {
            for ots in [Ots::W1, Ots::W2, Ots::W4, Ots::W8] {
                give(rt, ots, count as usize)?;
            }
        }
        _ => bail!("an unknown command"),
    }
    Ok(())
}

fn main(rt: HostRuntime) -> Result<()> {
    run(&rt)
}
