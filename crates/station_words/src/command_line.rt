//! The command line of a station as `clap` has it.
ghost use Rattle.std.specs.Prelude.{◌≡◌, IfOk, [], false, true};
ghost use Rattle.clap.specs.Words.{app_of, rule_of};
ghost use Rattle.command_words.specs.CommandLine.{IsCommand, text_rule, top_shape};
ghost use Rattle.station_words.specs.CommandLine.{keys_rule, station_app, station_shape};

use clap::{Arg, Command};
use std::alloc::{AllocError, Global};

// A required word.
fn text<'a>(alloc: Global, id: &'a str) -> Arg<'a>
    ensures rule { rule_of result ≡ text_rule id.entry.now }
    ensures local { result.global ≡ false }
{
    Arg::new(alloc, id).required(true)
}

// The files of a ring and of an own key, which may be left out.
fn keys<'a>(alloc: Global) -> Arg<'a>
    ensures rule { rule_of result ≡ keys_rule }
    ensures local { result.global ≡ false }
{
    Arg::new(alloc, "keys").num_args(2..=2)
}

fn station<'a>(alloc: Global) -> Result<Command<'a>, AllocError>
    ensures { IfOk result (IsCommand station_shape) }
{
    Command::new(alloc, "station")
        .arg(text(alloc, "scenario"))?
        .arg(text(alloc, "actor"))?
        .arg(text(alloc, "keep"))?
        .arg(keys(alloc))
}

fn top<'a>(alloc: Global) -> Command<'a>
    ensures { app_of result ≡ record { top = record top_shape { is_leaf = true }; subs = [] } }
{
    Command::new(alloc, "spire")
        .no_binary_name(true)
        .subcommand_required(true)
}

/// The whole command line.
pub(crate) fn command_line<'a>(alloc: Global) -> Result<Command<'a>, AllocError>
    ensures { IfOk result (λ c. app_of c ≡ station_app) }
{
    let station = station(alloc)?;
    top(alloc).subcommand(station)
}
