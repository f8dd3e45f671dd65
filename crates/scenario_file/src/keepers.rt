ghost use Rattle.std.specs.Prelude.{◌≡◌, ◌≤◌, ◌+◌, ◌==◌, IfOk};
ghost use Rattle.std.specs.List.{list_any};
ghost use Rattle.toml.specs.View.{table_view};
ghost use Rattle.scenario_file.specs.Answers.{Answers};
ghost use Rattle.scenario_file.specs.Actors.{actors_of};
ghost use Rattle.scenario_file.specs.declared.actors.TheConstants.{MOST_ACTORS};
ghost use Rattle.scenario_file.specs.Keepers.{is_new_actor, actor_in, calls_in, keeper_in, keepers_of, calls_of, failing_of};

use crate::actors::{Cast, MOST_ACTORS};
use crate::lists::{Series, list, numbers};
use crate::refusal::ScenarioRefusal;
use crate::rows::{RowReader, read_rows};
use crate::values::Keys;
use plain_lists::{Items, Vector, Want};
use quorum_sets::VoterSet;
use std::alloc::Global;

/// Which calls of an actor's keeper fail.
#[derive(Drop)]
pub struct Failing {
    pub actor: u32,
    pub calls: Items<u32>,
}

/// The rows of keepers.
#[derive(Drop)]
struct KeeperRows<'a> {
    cast: Cast,
    intruded: &'a VoterSet,
    ghost few: { cast.masters + cast.proxies + cast.screens ≤ MOST_ACTORS },
}

/// Whether an actor is a correct one that no row before names.
fn is_new_actor(intruded: &VoterSet, before: &[Failing], actor: u32) -> bool
    ensures { result ≡ is_new_actor intruded.now before.now actor }
{
    !intruded.has(actor) && !is_named(before, actor)
}

fn is_named(keepers: &[Failing], actor: u32) -> bool
    ensures { result ≡ list_any (λ keeper. keeper.actor == actor) keepers.now }
{
    keepers.iter().any(|keeper| keeper.actor == actor)
}

impl KeeperRows<'_> {
    /// The actor that a row names.
    #[tactic(auto, unfolding(crate::specs::Keepers::actor_in))]
    fn actor(&self, before: &[Failing], keys: &Keys<'_>) -> Result<u32, ScenarioRefusal>
        ensures { Answers result (actor_in self.now.cast self.now.intruded.now before.now keys.now.at.now (table_view keys.now.table.now)) }
    {
        let name = keys.text_at("actor")?;
        match self.cast.named(keys.alloc, name)? {
            Some(actor) if is_new_actor(self.intruded, before, actor) => Ok(actor),
            _ => keys.bad("actor"),
        }
    }
}

/// The calls that a row names.
#[tactic(auto, unfolding(crate::specs::Keepers::calls_in))]
fn calls(keys: &Keys<'_>) -> Result<Items<u32>, ScenarioRefusal>
    ensures { Answers result (calls_in keys.now.at.now (table_view keys.now.table.now)) }
{
    let value = keys.needed("failing")?;
    let values = list(keys.alloc, value, keys.at, "failing", 1, Some(16))?;
    numbers(keys.alloc, values, keys.at, "failing", Series::Calls)
}

impl RowReader<Failing> for KeeperRows<'_> {
    ghost use Rattle.scenario_file.specs.Keepers.{keeper_in};

    ghost reads = { λ rows before at t. keeper_in rows.cast rows.intruded.now before at t };

    #[tactic(auto, unfolding(crate::specs::Keepers::keeper_in))]
    fn read(&self, before: &[Failing], keys: &Keys<'_>) -> Result<Failing, ScenarioRefusal> {
        let actor = self.actor(before, keys)?;
        let calls = calls(keys)?;
        Ok(Failing { actor, calls })
    }
}

/// The rows of keepers of a document.
#[tactic(auto, unfolding(crate::specs::Keepers::keepers_of))]
pub fn keepers(
    document: &Keys<'_>,
    cast: Cast,
    intruded: &VoterSet,
) -> Result<Items<Failing>, ScenarioRefusal>
    requires { actors_of cast ≤ MOST_ACTORS }
    ensures { Answers result (keepers_of cast intruded.now (table_view document.now.table.now)) }
{
    read_rows(document, &KeeperRows { cast, intruded }, "keeper", None)
}

fn widened(alloc: Global, calls: &[u32]) -> Result<Vector, Want>
    ensures { IfOk result (λ wide. wide ≡ calls.now) }
{
    let mut wide = Items::new(alloc);
    for call in calls {
        wide.push(u64::from(*call))?;
    }
    Ok(wide)
}

/// The calls of an actor's keeper that fail.
fn calls_of(alloc: Global, keepers: &[Failing], actor: u32) -> Result<Vector, Want>
    ensures { IfOk result (λ calls. calls ≡ calls_of keepers.now actor) }
{
    for keeper in keepers {
        if keeper.actor == actor {
            return widened(alloc, keeper.calls.as_slice());
        }
    }
    Ok(Items::new(alloc))
}

/// One list of calls for each actor.
pub fn failing_lists(alloc: Global, cast: Cast, keepers: &[Failing]) -> Result<Items<Vector>, Want>
    requires { actors_of cast ≤ MOST_ACTORS }
    ensures { IfOk result (λ lists. lists ≡ failing_of cast keepers.now) }
{
    let mut lists = Items::new(alloc);
    for actor in 0..cast.actors() {
        lists.push(calls_of(alloc, keepers, actor)?)?;
    }
    Ok(lists)
}
