ghost use Rattle.std.specs.Prelude.{◌≡◌, ◌++◌, [], length, IfOk};
ghost use Rattle.toml.specs.View.{table_view};
ghost use Rattle.scenario_file.specs.Answers.{Answers};
ghost use Rattle.scenario_file.specs.Lists.{rows_of, row_name};

use crate::lists::rows;
use crate::refusal::ScenarioRefusal;
use crate::values::Keys;
use plain_lists::{Items, Text, Want};
use std::alloc::Global;
use toml::Table;

/// How the tables of one list are read.
pub trait RowReader<T: Drop> {
    ghost use Rattle.std.specs.Prelude.{ℕ, List};
    ghost use Rattle.toml.specs.Data.{Members};
    ghost use Rattle.scenario_file.specs.Answers.{Answer};

    /// What a table says, behind those before it.
    ghost reads: { Self → List T → List ℕ → Members → Answer T };

    fn read(&self, before: &[T], keys: &Keys<'_>) -> Result<T, ScenarioRefusal>
        ensures { Answers result (reads self.now before.now keys.now.at.now (table_view keys.now.table.now)) };
}

/// What stands before the keys of a row, as `point[2].`
pub fn row_name(alloc: Global, key: &str, place: usize) -> Result<Text, Want>
    ensures { IfOk result (λ name. name ≡ row_name key.now place) }
{
    let mut name = String::from_str(alloc, key)?;
    write!(name, "[{place}].")?;
    Text::from_str(alloc, name.as_str())
}

/// The rows at a key of the document, each behind those before it.
#[tactic(auto, unfolding(crate::specs::Lists::rows_of))]
pub fn read_rows<T: Drop, R: RowReader<T>>(
    document: &Keys<'_>,
    reader: &R,
    key: &str,
    most: Option<usize>,
) -> Result<Items<T>, ScenarioRefusal>
    ensures { Answers result (rows_of (R.reads reader.now) key.now most (table_view document.now.table.now)) }
{
    let tables = rows(document, key, most)?;
    let mut items = Items::new(document.alloc);
    for table in tables.as_slice() {
        let item = read_row(document.alloc, reader, key, items.as_slice(), table)?;
        items.push(item)?;
    }
    Ok(items)
}

fn read_row<T: Drop, R: RowReader<T>>(
    alloc: Global,
    reader: &R,
    key: &str,
    before: &[T],
    table: &Table,
) -> Result<T, ScenarioRefusal>
    ensures { Answers result (R.reads reader.now before.now (row_name key.now (length before.now)) (table_view table.now)) }
{
    let at = row_name(alloc, key, before.len())?;
    let keys = Keys {
        alloc,
        at: at.as_str(),
        table,
    };
    reader.read(before, &keys)
}
