ghost use Rattle.std.specs.Prelude.{◌≡◌, ◌≤◌, ℕ, Some, None, OnOk, OnErr, map, max, nat_eq, ◌&&◌, unwrap_or, if◌then◌else◌};
ghost use Rattle.quorum_sets.specs.Masters.{numbers_below};
ghost use Rattle.protocol_rules.specs.Words.{in_order, or_else};
ghost use Rattle.suspect_leader.specs.MeasureState.{told_at};

use crate::ranked::Ranked;
use plain_lists::Want;
use quorum_sets::MASTER_PLACES;
use std::alloc::Global;
use std::collections::BTreeMap;

/// What each master tells of each view.
pub type Table = BTreeMap<(u64, u32), u64, Global>;

/// What is told at a place.
pub(crate) fn told(table: &Table, v: u64, master: u32) -> Option<u64>
    ensures { result ≡ told_at table.now.entries v master }
{
    table.get(&(v, master)).copied()
}

/// What each of the masters tells of view `v`, in rising order, with `untold` for those that tell nothing.
pub(crate) fn all_told(table: &Table, v: u64, masters: u32, untold: u64) -> Ranked
    requires { masters ≤ MASTER_PLACES }
    ensures { result ≡ in_order (map (λ master. unwrap_or (told_at table.now.entries v master) untold) (numbers_below masters)) }
{
    let mut figures = Ranked::new();
    for master in 0..masters {
        figures.put(told(table, v, master).unwrap_or(untold));
    }
    figures
}

/// Keeps the greatest number told at a place.
pub(crate) fn keep_greatest(table: &mut Table, v: u64, master: u32, ticks: u64) -> Result<(), Want>
    ensures ok { OnOk result ((w j : ℕ) → unwrap_or (told_at table.new.entries w j) 0
        ≡ (if nat_eq master j && nat_eq v w then max (unwrap_or (told_at table.old.entries w j) 0) ticks else unwrap_or (told_at table.old.entries w j) 0)) }
    ensures err { OnErr result (table.new.entries ≡ table.old.entries) }
{
    let before = told(table, v, master).unwrap_or(0);
    table.insert((v, master), before.max(ticks))?;
    Ok(())
}

/// Keeps the first number told at a place.
pub(crate) fn keep_first(table: &mut Table, v: u64, master: u32, ticks: u64) -> Result<(), Want>
    ensures ok { OnOk result ((w j : ℕ) → told_at table.new.entries w j
        ≡ or_else (told_at table.old.entries w j) (if nat_eq master j && nat_eq v w then Some ticks else None)) }
    ensures err { OnErr result (table.new.entries ≡ table.old.entries) }
{
    if told(table, v, master).is_some() {
        return Ok(());
    }
    table.insert((v, master), ticks)?;
    Ok(())
}
