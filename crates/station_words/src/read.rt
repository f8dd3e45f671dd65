//! The words of a station, read.
ghost use Rattle.std.specs.Prelude.{◌≡◌, IfErr, IfOk, IsErrOf, MatchResult, Some, true, false, map, string_bytes};
ghost use Rattle.clap.specs.Words.{subcommand_rows_of};
ghost use Rattle.station_words.specs.Wanted.{Wanted, IsPlain, is_station, is_taken, station_found, wanted, wanted_in, words_of};

use crate::command_line::command_line;
use crate::given::{StationWords, station_of};
use clap::ArgMatches;
use clap::error::ErrorKind;
use command_words::WordsAnswer;
use std::alloc::Global;

/// Whether the words, those behind the program's name, are to be read as a station's: the first one is `station`.
pub fn is_station(words: &[String]) -> bool
    ensures { result ≡ is_station (map string_bytes words.now) }
{
    match words {
        [] => false,
        [first, ..] => first.as_str() == "station",
    }
}

// The station that `clap` found. A value that is missing counts as want of memory.
fn found_in<'a>(matches: &ArgMatches<'a>) -> Result<StationWords<'a>, WordsAnswer>
    ensures found { IfOk result (λ station. station_found (subcommand_rows_of matches.now) ≡ Some (wanted station)) }
    ensures want { IfErr result (λ answer. answer ≡ WordsAnswer.Want) }
{
    match station_of(matches) {
        Some(station) => Ok(station),
        None => Err(WordsAnswer::Want),
    }
}

/// The station that the words, those behind the program's name, ask for. It is given only where `clap` takes the words, and
/// is the one that `clap` finds in them; `Usage` comes only where `clap` refuses them for another cause than memory. Three
/// names behind `station`, or five, which aren't empty and don't begin with a hyphen, are given back.
pub fn read_station<'a>(alloc: Global, words: &'a [String]) -> Result<StationWords<'a>, WordsAnswer>
    ensures taken { IfOk result (λ station. is_taken (map string_bytes words.entry.now) ≡ true) }
    ensures asked { IfOk result (λ station. wanted_in (map string_bytes words.entry.now) ≡ Some (wanted station)) }
    ensures usage { IsErrOf result WordsAnswer.Usage → is_taken (map string_bytes words.entry.now) ≡ false }
    ensures plain { (asked : Wanted) → IsPlain asked → map string_bytes words.entry.now ≡ words_of asked → MatchResult result (λ station. wanted station ≡ asked) (λ answer. answer ≡ WordsAnswer.Want) }
{
    let command = command_line(alloc)?;
    match command.try_get_matches_from(words) {
        Ok(matches) => found_in(&matches),
        Err(error) if error.kind() == ErrorKind::OutOfMemory => Err(WordsAnswer::Want),
        Err(_) => Err(WordsAnswer::Usage),
    }
}
