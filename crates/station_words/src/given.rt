//! What the words of a station give, from the values that `clap` found.
ghost use Rattle.std.specs.Prelude.{◌≡◌, codes, map, option_map};
ghost use Rattle.clap.specs.Words.{all_of, first_of, found_of, rows_of, subcommand_rows_of};
ghost use Rattle.station_words.specs.Wanted.{key_files, keys_in, station_in, station_found, wanted};

use clap::ArgMatches;

/// The files of one who has no key but its own.
#[derive(Clone, Copy, Debug, PartialEq, Eq)]
pub struct KeyFiles<'a> {
    /// The public keys of all actors.
    pub ring: &'a str,
    /// What the own key is made of.
    pub key: &'a str,
}

/// A station to be: parts of the words.
#[derive(Debug, Drop, PartialEq, Eq)]
pub struct StationWords<'a> {
    /// The file of the scenario.
    pub scenario: &'a str,
    /// The actor's name.
    pub actor: &'a str,
    /// The file in which it keeps what it does.
    pub keep: &'a str,
    /// The files of its keys, where the scenario has no seed.
    pub keys: Option<KeyFiles<'a>>,
}

fn text<'a>(found: &ArgMatches<'a>, id: &str) -> Option<&'a str>
    ensures { option_map (λ s. s.now) result ≡ first_of id.now (rows_of (found_of found.now)) }
{
    found.get_str(id)
}

fn texts<'a, 'b>(found: &'b ArgMatches<'a>, id: &str) -> Option<&'b [&'a str]>
    ensures { option_map (λ texts. map (λ s. s.now) texts.now) result ≡ all_of id.now (rows_of (found_of found.now)) }
{
    found.get_strs(id)
}

// The files of keys, two or none.
fn keys<'a>(found: &ArgMatches<'a>) -> Option<Option<KeyFiles<'a>>>
    ensures { option_map (option_map key_files) result ≡ keys_in (all_of (codes "keys") (rows_of (found_of found.now))) }
{
    match texts(found, "keys") {
        None => Some(None),
        Some([ring, key]) => Some(Some(KeyFiles { ring, key })),
        Some(_) => None,
    }
}

fn station<'a>(found: &ArgMatches<'a>) -> Option<StationWords<'a>>
    ensures { option_map wanted result ≡ station_in (rows_of (found_of found.now)) }
{
    Some(StationWords {
        scenario: text(found, "scenario")?,
        actor: text(found, "actor")?,
        keep: text(found, "keep")?,
        keys: keys(found)?,
    })
}

/// The station that `clap` found, with its values.
pub(crate) fn station_of<'a>(matches: &ArgMatches<'a>) -> Option<StationWords<'a>>
    ensures { option_map wanted result ≡ station_found (subcommand_rows_of matches.now) }
{
    let (name, found) = matches.subcommand()?;
    match name {
        "station" => station(found),
        _ => None,
    }
}
