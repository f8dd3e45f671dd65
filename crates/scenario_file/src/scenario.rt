ghost use Rattle.std.specs.Prelude.{◌≡◌, ◌≤◌, [], None, IfOk, IsUtf8};
ghost use Rattle.toml.specs.View.{table_view};
ghost use Rattle.scenario_file.specs.declared.refusal.ScenarioRefusal.TheVariants.{BadToml};
ghost use Rattle.scenario_file.specs.Answers.{Shows};
ghost use Rattle.scenario_file.specs.Reading.{scenario_of, scenario_in, contents, cast_of, smallest};
ghost use Rattle.scenario_file.specs.Shown.{settings_shown};
ghost use Rattle.scenario_file.specs.Valid.{IsScenario};

use crate::actors::Cast;
use crate::keepers::{failing_lists, keepers};
use crate::plant::plant;
use crate::refusal::ScenarioRefusal;
use crate::settings::{Group, read_group, usual_heights};
use crate::unknown::first_unknown;
use crate::values::Keys;
use master_points::Plant;
use plain_lists::{Copied, Items, Vector, Want};
use quorum_sets::{Sizes, VoterSet};
use std::alloc::Global;

/// A group of masters with its clients, its plant and its faults.
pub struct Scenario {
    pub sizes: Sizes,
    /// The seed that all actors' keys come from.
    pub seed: [u8; 32],
    /// The heights of the levels of each key's trees, the highest tree first.
    pub heights: Items<u32>,
    pub intruded: VoterSet,
    pub screens: u32,
    pub plant: Plant,
    /// For each actor in order, which calls of its keeper fail. Appends and readings are counted together, from 1.
    pub failing: Items<Vector>,
    /// 1 where each body is signed alone, 2 where the bodies of one entry are signed in groups.
    pub frames: u32,
}

// Taken apart here once, so that no crate above proves it again.
impl Drop for Scenario {
    fn drop(self) {
        let Scenario {
            sizes: _,
            seed: _,
            heights: _,
            intruded: _,
            screens: _,
            plant: _,
            failing: _,
            frames: _,
        } = self;
    }
}

impl Scenario {
    /// The scenario of a file: TOML text (UTF-8) with the keys of `docs/FORMATS.md`.
    pub fn read(alloc: Global, bytes: &[u8]) -> Result<Scenario, ScenarioRefusal>
        ensures text { IsUtf8 bytes.now → Shows contents result (scenario_in bytes.now) }
        ensures no_text { ¬ IsUtf8 bytes.now → (result ≡ Err BadToml) }
        ensures valid { IfOk result (λ scenario. IsScenario (contents scenario)) }
    {
        match std::str::from_utf8(bytes) {
            Ok(text) => read_text(alloc, text),
            Err(_) => Err(ScenarioRefusal::BadToml),
        }
    }

    /// How many actors of each kind the scenario has.
    pub fn cast(&self) -> Cast
        requires { IsScenario (contents self.now) }
        ensures { result ≡ cast_of (contents self.now).settings self.now.plant }
    {
        Cast {
            masters: self.sizes.n,
            proxies: self.plant.devices.len() as u32,
            screens: self.screens,
        }
    }

    /// The smallest scenario: four masters and one screen, no plant, and a seed of zeros.
    pub fn s1(alloc: Global) -> Result<Scenario, Want>
        ensures { IfOk result (λ scenario. contents scenario ≡ smallest) }
    {
        let cast = Cast {
            masters: 4,
            proxies: 0,
            screens: 1,
        };
        let failing = failing_lists(alloc, cast, &[])?;
        Ok(with_plant(smallest_group(alloc)?, empty_plant(alloc), failing))
    }
}

/// The smallest scenario's keys that aren't tables.
fn smallest_group(alloc: Global) -> Result<Group, Want>
    ensures { IfOk result (λ group. settings_shown group ≡ smallest.settings) }
{
    Ok(Group {
        sizes: Sizes::new(1, 0).unwrap(),
        seed: [0; 32],
        heights: usual_heights(alloc)?,
        frames: 1,
        intruded: VoterSet::empty(),
        screens: 1,
    })
}

/// The plant of nothing.
fn empty_plant(alloc: Global) -> Plant
    ensures { result ≡ smallest.plant }
{
    Plant {
        devices: Items::new(alloc),
        points: Items::new(alloc),
        alarms: Items::new(alloc),
        interlocks: Items::new(alloc),
    }
}

/// The scenario of a text.
#[tactic(auto, unfolding(crate::specs::Reading::scenario_in))]
fn read_text(alloc: Global, text: &str) -> Result<Scenario, ScenarioRefusal>
    ensures { Shows contents result (scenario_in text.now) }
{
    match toml::table_from_str(alloc, text) {
        Ok(table) => read_document(&Keys {
            alloc,
            at: "",
            table: &table,
        }),
        Err(error) => Err(if error.is_memory() {
            ScenarioRefusal::Want
        } else {
            ScenarioRefusal::BadToml
        }),
    }
}

/// The scenario of a document.
#[tactic(auto, unfolding(crate::specs::Reading::scenario_of))]
fn read_document(document: &Keys<'_>) -> Result<Scenario, ScenarioRefusal>
    requires { document.now.at.now ≡ [] }
    ensures { Shows contents result (scenario_of (table_view document.now.table.now)) }
{
    let group = read_group(document)?;
    let plant = plant(document)?;
    let cast = Cast {
        masters: group.sizes.n,
        proxies: plant.devices.len() as u32,
        screens: group.screens,
    };
    let keepers = keepers(document, cast, &group.intruded)?;
    if let Some(name) = first_unknown(document)? {
        return Err(ScenarioRefusal::UnknownKey { name });
    }
    let failing = failing_lists(document.alloc, cast, keepers.as_slice())?;
    Ok(with_plant(group, plant, failing))
}

/// The scenario of its parts.
fn with_plant(group: Group, plant: Plant, failing: Items<Vector>) -> Scenario
    ensures { contents result ≡ record { settings = settings_shown group; plant = plant; failing = failing; held = None } }
{
    let Group {
        sizes,
        seed,
        heights,
        frames,
        intruded,
        screens,
    } = group;
    Scenario {
        sizes,
        seed,
        heights,
        intruded,
        screens,
        plant,
        failing,
        frames,
    }
}

impl Copied for Scenario {
    fn copy(&self) -> Result<Self, Want> {
        Ok(Scenario {
            sizes: self.sizes,
            seed: self.seed,
            heights: self.heights.copy()?,
            intruded: self.intruded.copied(),
            screens: self.screens,
            plant: self.plant.copy()?,
            failing: self.failing.copy()?,
            frames: self.frames,
        })
    }
}
