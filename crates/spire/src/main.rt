//! The program: runs the command that its words are, over real files and standard output.
#![tactic(auto)]

#[cfg(test)]
mod calls;
#[cfg(test)]
mod devices;
#[cfg(test)]
mod made;
#[cfg(test)]
mod merged;
#[cfg(test)]
mod named_files;
#[cfg(test)]
mod ordered;
#[cfg(test)]
mod plays;
#[cfg(test)]
mod printed_parts;
#[cfg(test)]
mod questions;
#[cfg(test)]
mod raw;
#[cfg(test)]
mod rebuilt_parts;
#[cfg(test)]
mod refused;
#[cfg(test)]
mod replayed;
#[cfg(test)]
mod runs;
#[cfg(test)]
mod station_calls;

use command_ends::no_words::{WordsRefusal, spire_without_words};
use outside::{RealErr, RealFiles, RealOut, Sink};
use run_program::call::spire;
use station_commands::RealKeep;
use station_commands::call::station;
use station_files::ReadLines;
use station_words::is_station;
use std::process::ExitCode;
use std::{env, io};

fn main(rt: HostRuntime) -> ExitCode {
    let alloc = rt.alloc();
    let mut err = RealErr::make(rt.stderr());
    let status = match read_words(&rt) {
        Ok(words) if is_station(words.as_slice()) => {
            live_station(&rt, words.as_slice(), &mut err)
        }
        Ok(words) => {
            let mut files = RealFiles::make(alloc, &rt);
            let mut out = RealOut::make(io::writer(&rt));
            spire(&rt, alloc, words.as_slice(), &mut files, &mut out, &mut err)
        }
        Err(why) => spire_without_words(alloc, why, &mut err),
    };
    ExitCode::from(status)
}

// Lives a station over the real system. It puts out as it goes, so it is no command that ends with one text.
fn live_station<E: Sink>(rt: &HostRuntime, words: &[String], err: &mut E) -> u8 {
    let alloc = rt.alloc();
    let Ok(mut lines) = ReadLines::make(alloc, rt.reader()) else {
        return spire_without_words(alloc, WordsRefusal::Want, err);
    };
    let mut files = RealFiles::make(alloc, rt);
    let mut keep = RealKeep::make(alloc, rt);
    let mut out = RealOut::make(io::writer(rt));
    station(
        alloc, words, &mut files, &mut keep, &mut lines, &mut out, err,
    )
}

// The words after the program's name.
fn read_words(rt: &HostRuntime) -> Result<Vec<String>, WordsRefusal> {
    let args = env::args(rt).map_err(|error| match error.kind() {
        io::ErrorKind::OutOfMemory => WordsRefusal::Want,
        _ => WordsRefusal::NotText,
    })?;
    let mut words = Vec::new(rt.alloc());
    for word in args.skip(1) {
        words.push(word).map_err(|_| WordsRefusal::Want)?;
    }
    Ok(words)
}
