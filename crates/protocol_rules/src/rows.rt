ghost use Rattle.std.specs.Prelude.{◌≡◌, IfOk, nat_eq, option_copied};
ghost use Rattle.std.specs.List.{find};
ghost use Rattle.protocol_rules.specs.Group.{Group};
ghost use Rattle.protocol_rules.specs.Matrix.{row_of, rows_of_frames};

use message_types::{PoSummary, Rows, Signed};
use plain_lists::{Copied, Items, Vector, Want};
use quorum_sets::Sizes;
use std::alloc::Global;

/// Rows from summaries: each master's numbers at its place, an empty row where it signed none.
pub fn rows_of(alloc: Global, sizes: &Sizes, frames: &[Signed<PoSummary>]) -> Result<Rows, Want>
    ensures { IfOk result (λ rows. (g : Group) → sizes.now.n ≡ g.n → rows ≡ rows_of_frames g frames.now) }
{
    let mut rows = Items::new(alloc);
    for master in 0..sizes.n {
        rows.push(row_of(alloc, frames, master)?)?;
    }
    Ok(rows)
}

/// The numbers of the first summary that the master signed, none where it signed none.
fn row_of(alloc: Global, frames: &[Signed<PoSummary>], master: u32) -> Result<Vector, Want>
    ensures { IfOk result (λ row. row ≡ row_of frames.now master) }
{
    match first_signed(frames, master) {
        Some(frame) => frame.body.numbers.copy(),
        None => Ok(Items::new(alloc)),
    }
}

/// The first summary that the master signed.
fn first_signed(frames: &[Signed<PoSummary>], master: u32) -> Option<&Signed<PoSummary>>
    ensures { option_copied result ≡ find (λ f. nat_eq f.signer master) frames.now }
{
    frames.iter().find(|frame| frame.signer == master)
}
