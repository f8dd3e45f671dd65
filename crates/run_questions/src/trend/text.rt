//! The text of a point's changes.
ghost use Rattle.std.specs.Prelude.{◌≡◌, ◌++◌, IfOk, OnOk, string_bytes};
ghost use Rattle.std.specs.List.{flat_map};
ghost use Rattle.run_questions.specs.TrendText.{change_text, changes_text, head_text};

use plain_lists::Want;
use std::alloc::Global;
use trend_archive::{Changed, Changes};

pub(crate) fn changes_text(alloc: Global, changes: &Changes) -> Result<Vec<u8>, Want>
    ensures { IfOk result (λ text. text.items ≡ changes_text changes.now) }
{
    let mut text = String::new(alloc);
    put_head(&mut text, changes)?;
    put_changes(&mut text, changes.items.as_slice())?;
    Ok(text.into_bytes())
}

#[tactic(auto, unfolding(crate::specs::TrendText::head_text))]
fn put_head(text: &mut String, changes: &Changes) -> Result<(), Want>
    ensures { OnOk result (string_bytes text.new ≡ string_bytes text.old ++ head_text changes.now) }
{
    let point = changes.point;
    let first = changes.first;
    let last = changes.last;
    let count = changes.items.len();
    write!(text, "trend {point} {first} {last} changes {count}\n")?;
    Ok(())
}

fn put_changes(text: &mut String, changes: &[Changed]) -> Result<(), Want>
    ensures { OnOk result (string_bytes text.new ≡ string_bytes text.old ++ flat_map change_text changes.now) }
{
    for change in changes {
        put_change(text, *change)?;
    }
    Ok(())
}

#[tactic(auto, unfolding(crate::specs::TrendText::change_text))]
fn put_change(text: &mut String, change: Changed) -> Result<(), Want>
    ensures { OnOk result (string_bytes text.new ≡ string_bytes text.old ++ change_text change) }
{
    let number = change.number;
    let value = change.value;
    write!(text, "{number} {value}\n")?;
    Ok(())
}
