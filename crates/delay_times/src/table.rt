//! The whole table of a history's delays.
ghost use Rattle.std.specs.Prelude.{◌≡◌, ◌≤◌, IfOk};
ghost use Rattle.scenario_file.specs.Actors.{actors_of};
ghost use Rattle.delay_times.specs.Table.{delays_of};

use crate::happening::Happening;
use crate::outcomes::{Outcome, outcomes_of};
use crate::reigns::{Reign, reigns_of};
use crate::sayings::sayings_of;
use crate::spreads::{Spread, spreads_of};
use crate::unexecuted::{Unexecuted, unexecuted_of};
use plain_lists::{Items, Want};
use scenario_file::Cast;
use std::alloc::Global;

/// A history as far as delays go by it: its actors, how many entries it has, its correct masters, rising, and what happened, in
/// the order in which it did.
pub struct Watched {
    pub cast: Cast,
    pub entries: u64,
    pub masters: Items<u32>,
    pub happenings: Items<Happening>,
}

// Taken apart here once, so that no crate above proves it again.
impl Drop for Watched {
    fn drop(self) {
        let Watched {
            cast: _,
            entries: _,
            masters: _,
            happenings: _,
        } = self;
    }
}

/// The delays of a history.
pub struct Delays {
    /// The views in turn.
    pub reigns: Items<Reign>,
    /// How delays spread, client by client.
    pub spreads: Items<Spread>,
    /// The updates that not all correct masters executed, in the order in which they were said.
    pub unexecuted: Items<Unexecuted>,
    /// The outcomes of all updates, in the order in which these were said.
    pub outcomes: Items<Outcome>,
}

// Taken apart here once, so that no crate above proves it again.
impl Drop for Delays {
    fn drop(self) {
        let Delays {
            reigns: _,
            spreads: _,
            unexecuted: _,
            outcomes: _,
        } = self;
    }
}

/// The table of a history's delays.
#[tactic(auto, unfolding(crate::specs::Table::delays_of, crate::specs::Outcomes::outcomes_in, crate::specs::Unexecuted::unexecuted_in))]
pub fn delays_of(alloc: Global, watched: &Watched) -> Result<Delays, Want>
    requires { actors_of watched.now.cast ≤ 26 }
    ensures { IfOk result (λ delays. delays ≡ delays_of watched.now) }
{
    let cast = watched.cast;
    let masters = watched.masters.as_slice();
    let happenings = watched.happenings.as_slice();
    let reigns = reigns_of(alloc, masters, happenings, watched.entries)?;
    let sayings = sayings_of(alloc, happenings)?;
    let outcomes = outcomes_of(alloc, cast.proxies, masters, happenings, &sayings)?;
    let clients = cast.proxies + cast.screens;
    let spreads = spreads_of(alloc, outcomes.as_slice(), clients, cast.actors())?;
    let unexecuted = unexecuted_of(alloc, masters, happenings, &sayings)?;
    Ok(Delays {
        reigns: Items::from_vec(alloc, reigns),
        spreads: Items::from_vec(alloc, spreads),
        unexecuted: Items::from_vec(alloc, unexecuted),
        outcomes: Items::from_vec(alloc, outcomes),
    })
}
