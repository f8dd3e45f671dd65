//! What the words ask for, from the values that `clap` found.
ghost use Rattle.std.specs.Prelude.{◌≡◌, IfOk, map, option_map};
ghost use Rattle.clap.specs.Words.{all_of, first_of, found_of, rows_of, subcommand_rows_of};
ghost use Rattle.command_words.specs.Wanted.{asked_in, number_of, wanted};
ghost use Rattle.command_words.specs.Wanted.{play_in, run_in, replay_in, make_in, keys_in, key_in};
ghost use Rattle.command_words.specs.Wanted.{verify_in, parts_in, rebuild_in, blame_in, trend_in, delays_in, page_in};
ghost use Rattle.command_words.specs.Wanted.{picture_in, plot_in, chart_in, merge_in};

use clap::ArgMatches;
use std::alloc::{AllocError, Global};

/// A command with its values, which are parts of the words.
#[derive(Debug, Drop, PartialEq, Eq)]
pub enum Asked<'a> {
    /// Play a script.
    Play {
        scenario: &'a str,
        script: &'a str,
        words: &'a str,
    },
    /// Run a script in threads.
    Run {
        scenario: &'a str,
        script: &'a str,
        words: &'a str,
        hands: u32,
        turns: u32,
    },
    /// Print what a history says.
    Replay {
        scenario: &'a str,
        history: &'a str,
    },
    /// Make a run from a number.
    Make {
        number: u32,
    },
    /// Print the public keys of a scenario.
    Keys {
        scenario: &'a str,
    },
    /// Print what an actor's own key is made of.
    Key {
        scenario: &'a str,
        actor: &'a str,
    },
    /// Verify a signature of a message.
    Verify {
        public: &'a str,
        message: &'a str,
        signature: &'a str,
    },
    /// Print the parts of a certified request.
    Parts {
        scenario: &'a str,
        history: &'a str,
        originator: u32,
        number: u32,
    },
    /// Rebuild a request from its parts.
    Rebuild {
        scenario: &'a str,
        pieces: &'a str,
    },
    /// Name the masters that contradicted themselves.
    Blame {
        scenario: &'a str,
        history: &'a str,
    },
    /// Print a point's changes among a range of executions.
    Trend {
        scenario: &'a str,
        history: &'a str,
        point: u32,
        first: u32,
        last: u32,
    },
    /// Print how long updates took.
    Delays {
        scenario: &'a str,
        history: &'a str,
    },
    /// Print the page that shows a history.
    Page {
        scenario: &'a str,
        history: &'a str,
    },
    /// Draw the entries of a history, from one stamp to another where these are told, so many pixels wide where that is.
    Picture {
        scenario: &'a str,
        history: &'a str,
        first: Option<u32>,
        last: Option<u32>,
        width: Option<u32>,
    },
    /// Draw a point over the executions.
    Plot {
        scenario: &'a str,
        history: &'a str,
        point: u32,
        width: Option<u32>,
    },
    /// Draw how long updates took.
    Chart {
        scenario: &'a str,
        history: &'a str,
        width: Option<u32>,
    },
    /// Print one run of what stations kept.
    Merge {
        scenario: &'a str,
        keeps: Vec<&'a str>,
    },
}

fn text<'a>(found: &ArgMatches<'a>, id: &str) -> Option<&'a str>
    ensures { option_map (λ s. s.now) result ≡ first_of id.now (rows_of (found_of found.now)) }
{
    found.get_str(id)
}

fn texts<'a>(
    alloc: Global,
    found: &ArgMatches<'a>,
    id: &str,
) -> Result<Option<Vec<&'a str>>, AllocError>
    ensures { IfOk result (λ found_texts. option_map (λ texts. map (λ s. s.now) texts.items) found_texts ≡ all_of id.now (rows_of (found_of found.now))) }
{
    match found.get_strs(id) {
        Some(texts) => Ok(Some(Vec::from_slice(alloc, texts)?)),
        None => Ok(None),
    }
}

fn number(found: &ArgMatches, id: &str) -> Option<u32>
    ensures { result ≡ number_of id.now (rows_of (found_of found.now)) }
{
    found.get_one::<u32>(id)
}

fn play<'a>(found: &ArgMatches<'a>) -> Option<Asked<'a>>
    ensures { option_map wanted result ≡ play_in (rows_of (found_of found.now)) }
{
    Some(Asked::Play {
        scenario: text(found, "scenario")?,
        script: text(found, "script")?,
        words: text(found, "words")?,
    })
}

fn run<'a>(found: &ArgMatches<'a>) -> Option<Asked<'a>>
    ensures { option_map wanted result ≡ run_in (rows_of (found_of found.now)) }
{
    Some(Asked::Run {
        scenario: text(found, "scenario")?,
        script: text(found, "script")?,
        words: text(found, "words")?,
        hands: number(found, "hands")?,
        turns: number(found, "turns")?,
    })
}

fn replay<'a>(found: &ArgMatches<'a>) -> Option<Asked<'a>>
    ensures { option_map wanted result ≡ replay_in (rows_of (found_of found.now)) }
{
    Some(Asked::Replay {
        scenario: text(found, "scenario")?,
        history: text(found, "history")?,
    })
}

fn make<'a>(found: &ArgMatches<'a>) -> Option<Asked<'a>>
    ensures { option_map wanted result ≡ make_in (rows_of (found_of found.now)) }
{
    Some(Asked::Make {
        number: number(found, "number")?,
    })
}

fn keys<'a>(found: &ArgMatches<'a>) -> Option<Asked<'a>>
    ensures { option_map wanted result ≡ keys_in (rows_of (found_of found.now)) }
{
    Some(Asked::Keys {
        scenario: text(found, "scenario")?,
    })
}

fn key<'a>(found: &ArgMatches<'a>) -> Option<Asked<'a>>
    ensures { option_map wanted result ≡ key_in (rows_of (found_of found.now)) }
{
    Some(Asked::Key {
        scenario: text(found, "scenario")?,
        actor: text(found, "actor")?,
    })
}

fn verify<'a>(found: &ArgMatches<'a>) -> Option<Asked<'a>>
    ensures { option_map wanted result ≡ verify_in (rows_of (found_of found.now)) }
{
    Some(Asked::Verify {
        public: text(found, "public")?,
        message: text(found, "message")?,
        signature: text(found, "signature")?,
    })
}

fn parts<'a>(found: &ArgMatches<'a>) -> Option<Asked<'a>>
    ensures { option_map wanted result ≡ parts_in (rows_of (found_of found.now)) }
{
    Some(Asked::Parts {
        scenario: text(found, "scenario")?,
        history: text(found, "history")?,
        originator: number(found, "originator")?,
        number: number(found, "number")?,
    })
}

fn rebuild<'a>(found: &ArgMatches<'a>) -> Option<Asked<'a>>
    ensures { option_map wanted result ≡ rebuild_in (rows_of (found_of found.now)) }
{
    Some(Asked::Rebuild {
        scenario: text(found, "scenario")?,
        pieces: text(found, "pieces")?,
    })
}

fn blame<'a>(found: &ArgMatches<'a>) -> Option<Asked<'a>>
    ensures { option_map wanted result ≡ blame_in (rows_of (found_of found.now)) }
{
    Some(Asked::Blame {
        scenario: text(found, "scenario")?,
        history: text(found, "history")?,
    })
}

fn trend<'a>(found: &ArgMatches<'a>) -> Option<Asked<'a>>
    ensures { option_map wanted result ≡ trend_in (rows_of (found_of found.now)) }
{
    Some(Asked::Trend {
        scenario: text(found, "scenario")?,
        history: text(found, "history")?,
        point: number(found, "point")?,
        first: number(found, "first")?,
        last: number(found, "last")?,
    })
}

fn delays<'a>(found: &ArgMatches<'a>) -> Option<Asked<'a>>
    ensures { option_map wanted result ≡ delays_in (rows_of (found_of found.now)) }
{
    Some(Asked::Delays {
        scenario: text(found, "scenario")?,
        history: text(found, "history")?,
    })
}

fn page<'a>(found: &ArgMatches<'a>) -> Option<Asked<'a>>
    ensures { option_map wanted result ≡ page_in (rows_of (found_of found.now)) }
{
    Some(Asked::Page {
        scenario: text(found, "scenario")?,
        history: text(found, "history")?,
    })
}

fn picture<'a>(found: &ArgMatches<'a>) -> Option<Asked<'a>>
    ensures { option_map wanted result ≡ picture_in (rows_of (found_of found.now)) }
{
    Some(Asked::Picture {
        scenario: text(found, "scenario")?,
        history: text(found, "history")?,
        first: number(found, "first"),
        last: number(found, "last"),
        width: number(found, "width"),
    })
}

fn plot<'a>(found: &ArgMatches<'a>) -> Option<Asked<'a>>
    ensures { option_map wanted result ≡ plot_in (rows_of (found_of found.now)) }
{
    Some(Asked::Plot {
        scenario: text(found, "scenario")?,
        history: text(found, "history")?,
        point: number(found, "point")?,
        width: number(found, "width"),
    })
}

fn chart<'a>(found: &ArgMatches<'a>) -> Option<Asked<'a>>
    ensures { option_map wanted result ≡ chart_in (rows_of (found_of found.now)) }
{
    Some(Asked::Chart {
        scenario: text(found, "scenario")?,
        history: text(found, "history")?,
        width: number(found, "width"),
    })
}

fn merge<'a>(alloc: Global, found: &ArgMatches<'a>) -> Result<Option<Asked<'a>>, AllocError>
    ensures { IfOk result (λ asked. option_map wanted asked ≡ merge_in (rows_of (found_of found.now))) }
{
    let Some(scenario) = text(found, "scenario") else {
        return Ok(None);
    };
    match texts(alloc, found, "keep")? {
        Some(keeps) => Ok(Some(Asked::Merge { scenario, keeps })),
        None => Ok(None),
    }
}

/// The command that `clap` found, with its values.
pub fn asked_of<'a>(
    alloc: Global,
    matches: &ArgMatches<'a>,
) -> Result<Option<Asked<'a>>, AllocError>
    ensures { IfOk result (λ asked. option_map wanted asked ≡ asked_in (subcommand_rows_of matches.now)) }
{
    let Some((name, found)) = matches.subcommand() else {
        return Ok(None);
    };
    match name {
        "play" => Ok(play(found)),
        "run" => Ok(run(found)),
        "replay" => Ok(replay(found)),
        "make" => Ok(make(found)),
        "keys" => Ok(keys(found)),
        "key" => Ok(key(found)),
        "verify" => Ok(verify(found)),
        "parts" => Ok(parts(found)),
        "rebuild" => Ok(rebuild(found)),
        "blame" => Ok(blame(found)),
        "trend" => Ok(trend(found)),
        "delays" => Ok(delays(found)),
        "page" => Ok(page(found)),
        "picture" => Ok(picture(found)),
        "plot" => Ok(plot(found)),
        "chart" => Ok(chart(found)),
        "merge" => merge(alloc, found),
        _ => Ok(None),
    }
}
