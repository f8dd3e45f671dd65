ghost use Rattle.std.specs.Prelude.{◌≡◌, ◌++◌, ◌≤◌, [], length, map, IfOk, nat_lt};
ghost use Rattle.std.specs.List.{list_all};
ghost use Rattle.toml.specs.Data.{as_table};
ghost use Rattle.toml.specs.View.{view, table_view};
ghost use Rattle.scenario_file.specs.Answers.{Answers, Shows, kept};
ghost use Rattle.scenario_file.specs.Lists.{list_in, number_after, numbers_in, table_in, rows_at, gathered, is_above, sized};
ghost use Rattle.scenario_file.specs.Series.{may_follow};

use crate::refusal::ScenarioRefusal;
use crate::values::{Keys, bad, count, too_many};
use plain_lists::Items;
use std::alloc::Global;
use toml::{Table, Value};

/// What numbers of a list stand for.
#[derive(Clone, Copy, Debug, PartialEq, Eq)]
pub enum Series {
    /// Heights of trees.
    Heights,
    /// Different masters of a group of that many.
    Masters(u32),
    /// Rising numbers of calls.
    Calls,
}

impl Series {
    /// Whether a number may stand behind others.
    fn may_follow(self, before: &[u32], number: u32) -> bool
        ensures { result ≡ may_follow self before.now number }
    {
        match self {
            Series::Heights => number == 5 || number == 10,
            Series::Masters(count) => number < count && !before.contains(&number),
            Series::Calls => 1 <= number && number <= 50_000 && is_above_all(before, number),
        }
    }
}

fn is_above_all(before: &[u32], number: u32) -> bool
    ensures { result ≡ list_all (λ earlier. nat_lt earlier number) before.now }
{
    before.iter().all(|earlier| *earlier < number)
}

/// The elements of the list that a value is, where it has a length that its key allows.
pub fn list<'a>(
    alloc: Global,
    value: &'a Value,
    at: &str,
    key: &str,
    fewest: usize,
    most: Option<usize>,
) -> Result<&'a [Value], ScenarioRefusal>
    ensures { Shows (λ s. map view s.now) result (list_in (at.now ++ key.now) fewest most (view value.now)) }
{
    match value.as_array() {
        Some(items) => sized(alloc, items.as_slice(), at, key, fewest, most),
        None => bad(alloc, at, key),
    }
}

/// The elements, where there are as many as their key allows.
#[tactic(auto, using(crate::proofs::Gathering::length_of_view))]
fn sized<'a>(
    alloc: Global,
    items: &'a [Value],
    at: &str,
    key: &str,
    fewest: usize,
    most: Option<usize>,
) -> Result<&'a [Value], ScenarioRefusal>
    ensures { Shows (λ s. map view s.now) result (sized (at.now ++ key.now) fewest most (map view items.now)) }
{
    if items.len() < fewest {
        bad(alloc, at, key)
    } else if is_above(most, items.len()) {
        too_many(alloc, at, key)
    } else {
        Ok(items)
    }
}

fn is_above(most: Option<usize>, len: usize) -> bool
    ensures { result ≡ is_above most len }
{
    match most {
        Some(most) => most < len,
        None => false,
    }
}

/// A number that may stand behind others.
#[tactic(auto, unfolding(crate::specs::Lists::number_after))]
fn number_after(
    alloc: Global,
    value: &Value,
    at: &str,
    key: &str,
    series: Series,
    before: &[u32],
) -> Result<u32, ScenarioRefusal>
    ensures { Answers result (number_after (at.now ++ key.now) (may_follow series) before.now (view value.now)) }
{
    let number = count(alloc, value, at, key, 0, u32::MAX)?;
    if series.may_follow(before, number) {
        Ok(number)
    } else {
        bad(alloc, at, key)
    }
}

/// The numbers of a list, each of which may stand behind those before it.
pub fn numbers(
    alloc: Global,
    values: &[Value],
    at: &str,
    key: &str,
    series: Series,
) -> Result<Items<u32>, ScenarioRefusal>
    ensures { Answers result (numbers_in (at.now ++ key.now) (may_follow series) (map view values.now)) }
{
    let mut numbers = Items::new(alloc);
    for value in values {
        let number = number_after(alloc, value, at, key, series, numbers.as_slice())?;
        numbers.push(number)?;
    }
    Ok(numbers)
}

fn table<'a>(alloc: Global, value: &'a Value, key: &str) -> Result<&'a Table, ScenarioRefusal>
    ensures { Shows (λ t. table_view t.now) result (table_in key.now [] (view value.now)) }
{
    match value.as_table() {
        Some(table) => Ok(table),
        None => bad(alloc, "", key),
    }
}

fn tables<'a>(
    alloc: Global,
    values: &'a [Value],
    key: &str,
) -> Result<Items<&'a Table>, ScenarioRefusal>
    ensures { Shows (map (λ t. table_view t.now)) result (gathered (table_in key.now) [] (map view values.now)) }
{
    let mut tables = Items::new(alloc);
    for value in values {
        tables.push(table(alloc, value, key)?)?;
    }
    Ok(tables)
}

/// The tables at a key of the document, at most so many; none where it isn't there.
#[tactic(auto, unfolding(crate::specs::Lists::rows_at, crate::specs::Lists::list_in))]
pub fn rows<'a>(
    document: &Keys<'a>,
    key: &str,
    most: Option<usize>,
) -> Result<Items<&'a Table>, ScenarioRefusal>
    ensures { Shows (map (λ t. table_view t.now)) result (rows_at key.now most (table_view document.now.table.now)) }
{
    match document.member(key) {
        Some(value) => {
            let values = list(document.alloc, value, "", key, 0, most)?;
            tables(document.alloc, values, key)
        }
        None => Ok(Items::new(document.alloc)),
    }
}
