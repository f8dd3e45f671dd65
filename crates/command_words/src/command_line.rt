//! The command line as `clap` has it.
ghost use Rattle.std.specs.Prelude.{◌≡◌, ◌∷◌, [], IfOk, codes, false, true};
ghost use Rattle.clap.specs.Words.{App, Shape, app_of, rule_of, with_subcommand};
ghost use Rattle.command_words.specs.CommandLine.{IsCommand, command, free_rule, number_rule, option_rule, spire_app, text_rule, top_shape, width_rule};
ghost use Rattle.command_words.specs.CommandLine.{play_shape, run_shape, replay_shape, make_shape, keys_shape, key_shape};
ghost use Rattle.command_words.specs.CommandLine.{verify_shape, parts_shape, rebuild_shape, blame_shape, trend_shape, delays_shape, page_shape};
ghost use Rattle.command_words.specs.CommandLine.{keeps_rule, picture_shape, plot_shape, chart_shape, merge_shape};

use clap::builder::ValueParser;
use clap::{Arg, Command};
use std::alloc::{AllocError, Global};

/// How many hands `run` has at most.
pub const MOST_HANDS: u64 = 4;

/// How many turns each actor of `run` has at most.
pub const MOST_TURNS: u64 = 4000;

/// How many pixels wide a picture is at least, and at most.
pub const LEAST_WIDTH: u64 = 600;

pub const MOST_WIDTH: u64 = 4000;

/// How many files `merge` takes at most: as many as a group has actors.
pub const MOST_KEEPS: usize = 26;

/// The greatest number of a word that only has to fit 32 bits.
pub const MOST_NUMBER: u64 = 4294967295;

// A required word.
fn text<'a>(alloc: Global, id: &'a str) -> Arg<'a>
    ensures rule { rule_of result ≡ text_rule id.entry.now }
    ensures local { result.global ≡ false }
{
    Arg::new(alloc, id).required(true)
}

// A required number in a range.
fn number<'a>(alloc: Global, id: &'a str, low: u64, high: u64) -> Arg<'a>
    ensures rule { rule_of result ≡ number_rule id.entry.now low high }
    ensures local { result.global ≡ false }
{
    text(alloc, id).value_parser(ValueParser::unsigned(low, high))
}

// A required number in a range, behind `--id`.
fn option<'a>(alloc: Global, id: &'a str, low: u64, high: u64) -> Arg<'a>
    ensures rule { rule_of result ≡ option_rule id.entry.now low high }
    ensures local { result.global ≡ false }
{
    number(alloc, id, low, high).long(id)
}

// A number in a range, which may be left out.
fn free<'a>(alloc: Global, id: &'a str, low: u64, high: u64) -> Arg<'a>
    ensures rule { rule_of result ≡ free_rule id.entry.now low high }
    ensures local { result.global ≡ false }
{
    Arg::new(alloc, id).value_parser(ValueParser::unsigned(low, high))
}

// How wide a picture is, behind `--width`, which may be left out.
fn width<'a>(alloc: Global) -> Arg<'a>
    ensures rule { rule_of result ≡ width_rule }
    ensures local { result.global ≡ false }
{
    free(alloc, "width", LEAST_WIDTH, MOST_WIDTH).long("width")
}

// The files that stations kept.
fn keeps<'a>(alloc: Global) -> Arg<'a>
    ensures rule { rule_of result ≡ keeps_rule }
    ensures local { result.global ≡ false }
{
    text(alloc, "keep").num_args(1..=MOST_KEEPS)
}

fn over_a_history<'a>(alloc: Global, name: &'a str) -> Result<Command<'a>, AllocError>
    ensures { IfOk result (IsCommand (command name.entry.now (text_rule (codes "scenario") ∷ text_rule (codes "history") ∷ []))) }
{
    Command::new(alloc, name)
        .arg(text(alloc, "scenario"))?
        .arg(text(alloc, "history"))
}

fn over_a_script<'a>(alloc: Global, name: &'a str) -> Result<Command<'a>, AllocError>
    ensures { IfOk result (IsCommand (command name.entry.now (text_rule (codes "scenario") ∷ text_rule (codes "script") ∷ text_rule (codes "words") ∷ []))) }
{
    Command::new(alloc, name)
        .arg(text(alloc, "scenario"))?
        .arg(text(alloc, "script"))?
        .arg(text(alloc, "words"))
}

fn play<'a>(alloc: Global) -> Result<Command<'a>, AllocError>
    ensures { IfOk result (IsCommand play_shape) }
{
    over_a_script(alloc, "play")
}

fn run<'a>(alloc: Global) -> Result<Command<'a>, AllocError>
    ensures { IfOk result (IsCommand run_shape) }
{
    over_a_script(alloc, "run")?
        .arg(option(alloc, "hands", 1, MOST_HANDS))?
        .arg(option(alloc, "turns", 1, MOST_TURNS))
}

fn replay<'a>(alloc: Global) -> Result<Command<'a>, AllocError>
    ensures { IfOk result (IsCommand replay_shape) }
{
    over_a_history(alloc, "replay")
}

fn make<'a>(alloc: Global) -> Result<Command<'a>, AllocError>
    ensures { IfOk result (IsCommand make_shape) }
{
    Command::new(alloc, "make").arg(number(alloc, "number", 0, MOST_NUMBER))
}

fn keys<'a>(alloc: Global) -> Result<Command<'a>, AllocError>
    ensures { IfOk result (IsCommand keys_shape) }
{
    Command::new(alloc, "keys").arg(text(alloc, "scenario"))
}

fn key<'a>(alloc: Global) -> Result<Command<'a>, AllocError>
    ensures { IfOk result (IsCommand key_shape) }
{
    Command::new(alloc, "key")
        .arg(text(alloc, "scenario"))?
        .arg(text(alloc, "actor"))
}

fn verify<'a>(alloc: Global) -> Result<Command<'a>, AllocError>
    ensures { IfOk result (IsCommand verify_shape) }
{
    Command::new(alloc, "verify")
        .arg(text(alloc, "public"))?
        .arg(text(alloc, "message"))?
        .arg(text(alloc, "signature"))
}

fn parts<'a>(alloc: Global) -> Result<Command<'a>, AllocError>
    ensures { IfOk result (IsCommand parts_shape) }
{
    over_a_history(alloc, "parts")?
        .arg(number(alloc, "originator", 0, MOST_NUMBER))?
        .arg(number(alloc, "number", 0, MOST_NUMBER))
}

fn rebuild<'a>(alloc: Global) -> Result<Command<'a>, AllocError>
    ensures { IfOk result (IsCommand rebuild_shape) }
{
    Command::new(alloc, "rebuild")
        .arg(text(alloc, "scenario"))?
        .arg(text(alloc, "pieces"))
}

fn blame<'a>(alloc: Global) -> Result<Command<'a>, AllocError>
    ensures { IfOk result (IsCommand blame_shape) }
{
    over_a_history(alloc, "blame")
}

fn trend<'a>(alloc: Global) -> Result<Command<'a>, AllocError>
    ensures { IfOk result (IsCommand trend_shape) }
{
    over_a_history(alloc, "trend")?
        .arg(number(alloc, "point", 0, MOST_NUMBER))?
        .arg(number(alloc, "first", 0, MOST_NUMBER))?
        .arg(number(alloc, "last", 0, MOST_NUMBER))
}

fn delays<'a>(alloc: Global) -> Result<Command<'a>, AllocError>
    ensures { IfOk result (IsCommand delays_shape) }
{
    over_a_history(alloc, "delays")
}

fn page<'a>(alloc: Global) -> Result<Command<'a>, AllocError>
    ensures { IfOk result (IsCommand page_shape) }
{
    over_a_history(alloc, "page")
}

fn picture<'a>(alloc: Global) -> Result<Command<'a>, AllocError>
    ensures { IfOk result (IsCommand picture_shape) }
{
    over_a_history(alloc, "picture")?
        .arg(free(alloc, "first", 0, MOST_NUMBER))?
        .arg(free(alloc, "last", 0, MOST_NUMBER))?
        .arg(width(alloc))
}

fn plot<'a>(alloc: Global) -> Result<Command<'a>, AllocError>
    ensures { IfOk result (IsCommand plot_shape) }
{
    over_a_history(alloc, "plot")?
        .arg(number(alloc, "point", 0, MOST_NUMBER))?
        .arg(width(alloc))
}

fn chart<'a>(alloc: Global) -> Result<Command<'a>, AllocError>
    ensures { IfOk result (IsCommand chart_shape) }
{
    over_a_history(alloc, "chart")?.arg(width(alloc))
}

fn merge<'a>(alloc: Global) -> Result<Command<'a>, AllocError>
    ensures { IfOk result (IsCommand merge_shape) }
{
    Command::new(alloc, "merge")
        .arg(text(alloc, "scenario"))?
        .arg(keeps(alloc))
}

// Lets go of a value. Where a function does so by itself, its proof goes through all that a command holds.
fn let_go<T: Drop>(_value: T) {}

// The command with one subcommand more. It takes both as they were made, so that `command_line` needs no early return.
fn joined<'a>(
    top: Result<Command<'a>, AllocError>,
    made: Result<Command<'a>, AllocError>,
) -> Result<Command<'a>, AllocError>
    ensures { (app : App) (shape : Shape) → IfOk top.entry (λ c. app_of c ≡ app) → IfOk made.entry (IsCommand shape) → IfOk result (λ c. app_of c ≡ with_subcommand app shape) }
{
    match top {
        Ok(top) => joined_to(top, made),
        Err(error) => {
            let_go(made);
            Err(error)
        }
    }
}

fn joined_to<'a>(
    top: Command<'a>,
    made: Result<Command<'a>, AllocError>,
) -> Result<Command<'a>, AllocError>
    ensures { (shape : Shape) → IfOk made.entry (IsCommand shape) → IfOk result (λ c. app_of c ≡ with_subcommand (app_of top.entry) shape) }
{
    match made {
        Ok(subcommand) => top.subcommand(subcommand),
        Err(error) => {
            let_go(top);
            Err(error)
        }
    }
}

fn top<'a>(alloc: Global) -> Command<'a>
    ensures { app_of result ≡ record { top = record top_shape { is_leaf = true }; subs = [] } }
{
    Command::new(alloc, "spire")
        .no_binary_name(true)
        .subcommand_required(true)
}

/// The whole command line.

pub fn command_line<'a>(alloc: Global) -> Result<Command<'a>, AllocError>
    ensures { IfOk result (λ c. app_of c ≡ spire_app) }
{
    let commands = joined(Ok(top(alloc)), play(alloc));
    let commands = joined(commands, run(alloc));
    let commands = joined(commands, replay(alloc));
    let commands = joined(commands, make(alloc));
    let commands = joined(commands, keys(alloc));
    let commands = joined(commands, key(alloc));
    let commands = joined(commands, verify(alloc));
    let commands = joined(commands, parts(alloc));
    let commands = joined(commands, rebuild(alloc));
    let commands = joined(commands, blame(alloc));
    let commands = joined(commands, trend(alloc));
    let commands = joined(commands, delays(alloc));
    let commands = joined(commands, page(alloc));
    let commands = joined(commands, picture(alloc));
    let commands = joined(commands, plot(alloc));
    let commands = joined(commands, chart(alloc));
    joined(commands, merge(alloc))
}
