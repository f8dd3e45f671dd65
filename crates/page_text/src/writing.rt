//! A whole page.
ghost use Rattle.std.specs.Prelude.{◌≡◌, ◌++◌, OnOk, IfOk};
ghost use Rattle.page_text.specs.Page.{page_text, script_text};

use crate::escaping::put_escaped;
use crate::part::Part;
use plain_lists::Want;
use std::alloc::Global;

/// The page of three texts: what a scenario says of its plant, a printed run, and the details of its entries.
#[tactic(auto, unfolding(crate::specs::Page::page_text))]
pub fn page_of(alloc: Global, plant: &[u8], run: &[u8], details: &[u8]) -> Result<Vec<u8>, Want>
    ensures { IfOk result (λ made. made.items ≡ page_text plant.now run.now details.now) }
{
    let mut made = Vec::new(alloc);
    Part::BeforePlant.put(&mut made)?;
    put_escaped(&mut made, plant)?;
    Part::BeforeRun.put(&mut made)?;
    put_escaped(&mut made, run)?;
    Part::BeforeDetails.put(&mut made)?;
    put_escaped(&mut made, details)?;
    Part::BeforeScript.put(&mut made)?;
    put_script(&mut made)?;
    Part::Behind.put(&mut made)?;
    Ok(made)
}

#[tactic(auto, unfolding(crate::specs::Page::script_text))]
fn put_script(made: &mut Vec<u8>) -> Result<(), Want>
    ensures { OnOk result (made.new.items ≡ made.old.items ++ script_text) }
{
    Part::Read.put(made)?;
    Part::Words.put(made)?;
    Part::Causes.put(made)?;
    Part::Head.put(made)?;
    Part::Line.put(made)?;
    Part::Plots.put(made)?;
    Part::Delays.put(made)?;
    Part::Page.put(made)
}
