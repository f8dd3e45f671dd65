ghost use Rattle.std.specs.Prelude.{◌≡◌, [], IfOk};
ghost use Rattle.std.specs.List.{list_any};
ghost use Rattle.std.specs.Str.{bytes_eq};
ghost use Rattle.toml.specs.View.{table_view};
ghost use Rattle.scenario_file.specs.Answers.{Answers};
ghost use Rattle.scenario_file.specs.Unknown.{keys_of, unknown_in, lesser, least_of, first_unknown};
ghost use Rattle.scenario_file.specs.Folding.{least_with, least_at, least_unknown};
ghost use Rattle.scenario_file.specs.Lists.{row_name};

use crate::lists::rows;
use crate::refusal::ScenarioRefusal;
use crate::rows::row_name;
use crate::values::{Keys, whole_name};
use plain_lists::{Text, Want};
use std::alloc::Global;
use toml::Table;

/// The kinds of tables that a document has.
#[derive(Clone, Copy, Debug, PartialEq, Eq)]
pub enum Kind {
    Document,
    Proxy,
    Point,
    Alarm,
    Interlock,
    Keeper,
}

impl Kind {
    /// Whether such a table may have a key.
    fn has(self, key: &str) -> bool
        ensures { result ≡ list_any (bytes_eq key.now) (keys_of self) }
    {
        match self {
            Kind::Document => is_document_key(key),
            Kind::Proxy => match key {
                "coils" | "discrete" | "holding" | "input" => true,
                _ => false,
            },
            Kind::Point => is_point_key(key),
            Kind::Alarm => match key {
                "name" | "point" | "kind" | "limit" | "band" => true,
                _ => false,
            },
            Kind::Interlock => match key {
                "name" | "point" | "value" | "deny" => true,
                _ => false,
            },
            Kind::Keeper => match key {
                "actor" | "failing" => true,
                _ => false,
            },
        }
    }
}

fn is_document_key(key: &str) -> bool
    ensures { result ≡ list_any (bytes_eq key.now) (keys_of Kind.Document) }
{
    match key {
        "f" | "k" | "seed" | "levels" | "frames" | "intruded" => true,
        "screens" | "rules" | "proxy" | "point" | "alarm" | "interlock" | "keeper" => true,
        _ => false,
    }
}

fn is_point_key(key: &str) -> bool
    ensures { result ≡ list_any (bytes_eq key.now) (keys_of Kind.Point) }
{
    match key {
        "name" | "proxy" | "area" | "place" => true,
        "scale" | "offset" | "low" | "high" | "start" => true,
        _ => false,
    }
}

/// The lesser of two names by their bytes.
fn lesser(best: Option<Text>, name: Text) -> Text
    ensures { result ≡ lesser best name }
{
    match best {
        Some(best) => {
            if name.as_str() < best.as_str() {
                name
            } else {
                best
            }
        }
        None => name,
    }
}

/// The least name of a table's keys that its kind doesn't have, and of `best`.
fn least_in(keys: &Keys<'_>, kind: Kind, best: Option<Text>) -> Result<Option<Text>, Want>
    ensures { IfOk result (λ least. least ≡ least_of best (unknown_in kind keys.now.at.now (table_view keys.now.table.now))) }
{
    let mut best = best;
    for (key, _value) in keys.table.iter() {
        best = least_with(keys, kind, best, key.as_str())?;
    }
    Ok(best)
}

/// The same for one key.
fn least_with(
    keys: &Keys<'_>,
    kind: Kind,
    best: Option<Text>,
    key: &str,
) -> Result<Option<Text>, Want>
    ensures { IfOk result (λ least. least ≡ least_with kind keys.now.at.now best key.now) }
{
    if kind.has(key) {
        return Ok(best);
    }
    let name = whole_name(keys.alloc, keys.at, key)?;
    Ok(Some(lesser(best, name)))
}

/// The least name of the keys of the rows at a key of the document that their kind doesn't have, and of `best`.
#[tactic(auto, unfolding(crate::specs::Folding::least_at, crate::specs::Unknown::unknown_at))]
fn least_at(
    document: &Keys<'_>,
    kind: Kind,
    key: &str,
    best: Option<Text>,
) -> Result<Option<Text>, ScenarioRefusal>
    ensures { Answers result (least_at kind key.now best (table_view document.now.table.now)) }
{
    let tables = rows(document, key, None)?;
    let mut best = best;
    for (place, table) in tables.as_slice().iter().enumerate() {
        best = least_in_row(document.alloc, kind, key, place, table, best)?;
    }
    Ok(best)
}

fn least_in_row(
    alloc: Global,
    kind: Kind,
    key: &str,
    place: usize,
    table: &Table,
    best: Option<Text>,
) -> Result<Option<Text>, Want>
    ensures { IfOk result (λ least. least ≡ least_of best (unknown_in kind (row_name key.now place) (table_view table.now))) }
{
    let at = row_name(alloc, key, place)?;
    let keys = Keys {
        alloc,
        at: at.as_str(),
        table,
    };
    least_in(&keys, kind, best)
}

/// The first of the keys of a document that no scenario has, by the bytes of its whole name.
pub fn first_unknown(document: &Keys<'_>) -> Result<Option<Text>, ScenarioRefusal>
    requires { document.now.at.now ≡ [] }
    ensures { Answers result (first_unknown (table_view document.now.table.now)) }
{
    least_unknown(document)
}

/// The same, table by table.
#[tactic(auto, unfolding(crate::specs::Folding::least_unknown))]
fn least_unknown(document: &Keys<'_>) -> Result<Option<Text>, ScenarioRefusal>
    requires { document.now.at.now ≡ [] }
    ensures { Answers result (least_unknown (table_view document.now.table.now)) }
{
    let best = least_in(document, Kind::Document, None)?;
    let best = least_at(document, Kind::Proxy, "proxy", best)?;
    let best = least_at(document, Kind::Point, "point", best)?;
    let best = least_at(document, Kind::Alarm, "alarm", best)?;
    let best = least_at(document, Kind::Interlock, "interlock", best)?;
    least_at(document, Kind::Keeper, "keeper", best)
}
