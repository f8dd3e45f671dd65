//! The words of a command line, read.
ghost use Rattle.std.specs.Prelude.{◌≡◌, IfErr, IfOk, IsErrOf, MatchResult, Some, true, false, map, string_bytes};
ghost use Rattle.clap.specs.Words.{subcommand_rows_of};
ghost use Rattle.command_words.specs.Wanted.{Wanted, IsPlain, asked_in, is_command, wanted, wanted_in, words_of};

use crate::asked::{Asked, asked_of};
use crate::command_line::command_line;
use clap::ArgMatches;
use clap::error::ErrorKind;
use std::alloc::{AllocError, Global};
use thiserror::Error;

/// Why words weren't read.
#[derive(Clone, Copy, Debug, PartialEq, Eq, Error)]
pub enum WordsAnswer {
    /// The words aren't a command.
    #[error("usage")]
    Usage,
    #[error("want of memory")]
    Want,
}

impl From<AllocError> for WordsAnswer {
    ghost use Rattle.command_words.specs.declared.read.WordsAnswer.TheVariants.{Want};

    ghost from_gives = { λ _ answer. answer ≡ Want };

    fn from(_refused: AllocError) -> WordsAnswer {
        WordsAnswer::Want
    }
}

// The command that `clap` found. A value that is missing counts as want of memory.
fn found_in<'a>(alloc: Global, matches: &ArgMatches<'a>) -> Result<Asked<'a>, WordsAnswer>
    ensures asked { IfOk result (λ asked. asked_in (subcommand_rows_of matches.now) ≡ Some (wanted asked)) }
    ensures want { IfErr result (λ answer. answer ≡ WordsAnswer.Want) }
{
    match asked_of(alloc, matches) {
        Ok(Some(asked)) => Ok(asked),
        _ => Err(WordsAnswer::Want),
    }
}

/// The command that the words, those behind the program's name, ask for. It is given only where `clap` takes the words, and
/// is the one that `clap` finds in them; `Usage` comes only where `clap` refuses them for another cause than memory. So
/// words that `clap` refuses are answered with `Usage`, or for want of memory with `Want`. A command as a user writes it,
/// with names that aren't empty and don't begin with a hyphen and numbers without sign or leading zeros, is given back with
/// its values.
///
/// Of words that `clap` takes and that aren't written so, as `make 007` or `run a b c --turns=2 --hands=1`, no clause says
/// that each value is found: `clap`'s contract says that of one level only, and here the values are those of the second.
/// Were one missing, the answer would be `Want`.

pub fn read_words<'a>(alloc: Global, words: &'a [String]) -> Result<Asked<'a>, WordsAnswer>
    ensures taken { IfOk result (λ asked. is_command (map string_bytes words.entry.now) ≡ true) }
    ensures asked { IfOk result (λ asked. wanted_in (map string_bytes words.entry.now) ≡ Some (wanted asked)) }
    ensures usage { IsErrOf result WordsAnswer.Usage → is_command (map string_bytes words.entry.now) ≡ false }
    ensures plain { (command : Wanted) → IsPlain command → map string_bytes words.entry.now ≡ words_of command → MatchResult result (λ asked. wanted asked ≡ command) (λ answer. answer ≡ WordsAnswer.Want) }
{
    let command = command_line(alloc)?;
    match command.try_get_matches_from(words) {
        Ok(matches) => found_in(alloc, &matches),
        Err(error) if error.kind() == ErrorKind::OutOfMemory => Err(WordsAnswer::Want),
        Err(_) => Err(WordsAnswer::Usage),
    }
}
