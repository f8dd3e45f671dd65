ghost use Rattle.std.specs.Prelude.{◌≡◌, ◌≤◌, ◌<◌, [], ◌∷◌, All, IfOk};
ghost use Rattle.toml.specs.View.{table_view};
ghost use Rattle.scenario_file.specs.Answers.{Answers, Shows};
ghost use Rattle.scenario_file.specs.Settings.{levels_of, set_of, intruded_of, rules_of, settings_of};
ghost use Rattle.scenario_file.specs.Shown.{settings_shown};

use crate::lists::{Series, list, numbers};
use crate::refusal::ScenarioRefusal;
use crate::values::Keys;
use master_points::MOST_SCREENS;
use plain_lists::{Items, Want};
use quorum_sets::{MOST_MASTERS, Rules, Sizes, VoterSet};
use std::alloc::Global;

/// What the keys that aren't tables say.
#[derive(Drop)]
pub struct Group {
    pub sizes: Sizes,
    pub seed: [u8; 32],
    pub heights: Items<u32>,
    pub frames: u32,
    pub intruded: VoterSet,
    pub screens: u32,
}

/// Three levels of height 5.
pub fn usual_heights(alloc: Global) -> Result<Items<u32>, Want>
    ensures { IfOk result (λ heights. heights ≡ 5 ∷ 5 ∷ 5 ∷ []) }
{
    Ok(Items::from_vec(alloc, Vec::from_slice(alloc, &[5, 5, 5])?))
}

/// The heights of the levels of trees, the highest first.
#[tactic(auto, unfolding(crate::specs::Settings::levels_of))]
fn levels(document: &Keys<'_>) -> Result<Items<u32>, ScenarioRefusal>
    requires { document.now.at.now ≡ [] }
    ensures { Answers result (levels_of (table_view document.now.table.now)) }
{
    match document.member("levels") {
        Some(value) => {
            let values = list(document.alloc, value, "", "levels", 1, Some(3))?;
            numbers(document.alloc, values, "", "levels", Series::Heights)
        }
        None => Ok(usual_heights(document.alloc)?),
    }
}

/// The set of the masters named.
fn set_of(masters: &[u32]) -> VoterSet
    requires { All (λ m. m < MOST_MASTERS) masters.now }
    ensures { result ≡ set_of masters.now }
{
    let mut set = VoterSet::empty();
    for master in masters {
        let _was_new = set.add(*master);
    }
    set
}

/// The intruded masters of a group of that many.
#[tactic(auto, unfolding(crate::specs::Settings::intruded_of))]
fn intruded(document: &Keys<'_>, masters: u32) -> Result<VoterSet, ScenarioRefusal>
    requires few { masters ≤ MOST_MASTERS }
    requires top { document.now.at.now ≡ [] }
    ensures { Answers result (intruded_of masters (table_view document.now.table.now)) }
{
    match document.member("intruded") {
        Some(value) => {
            let values = list(document.alloc, value, "", "intruded", 0, None)?;
            let numbers = numbers(
                document.alloc,
                values,
                "",
                "intruded",
                Series::Masters(masters),
            )?;
            Ok(set_of(numbers.as_slice()))
        }
        None => Ok(VoterSet::empty()),
    }
}

/// The rules that the masters go by.
#[tactic(auto, unfolding(crate::specs::Settings::rules_of))]
fn rules(document: &Keys<'_>) -> Result<Rules, ScenarioRefusal>
    requires { document.now.at.now ≡ [] }
    ensures { Answers result (rules_of (table_view document.now.table.now)) }
{
    let number = document.count_or("rules", 1, 1, 2)?;
    Ok(if number == 2 {
        Rules::Live
    } else {
        Rules::First
    })
}

/// What the keys that aren't tables say.
#[tactic(auto, unfolding(crate::specs::Settings::settings_of))]
pub fn read_group(document: &Keys<'_>) -> Result<Group, ScenarioRefusal>
    requires { document.now.at.now ≡ [] }
    ensures few { IfOk result (λ group. group.screens ≤ MOST_SCREENS) }
    ensures answer { Shows settings_shown result (settings_of (table_view document.now.table.now)) }
{
    let f = document.count_at("f", 1, 3)?;
    let k = document.count_or("k", 0, 0, 2)?;
    let sizes = Sizes::new(f, k).unwrap();
    let seed = document.seed_at("seed")?;
    let heights = levels(document)?;
    let frames = document.count_or("frames", 1, 1, 2)?;
    let intruded = intruded(document, sizes.n)?;
    let screens = document.count_at("screens", 1, MOST_SCREENS)?;
    let rules = rules(document)?;
    Ok(Group {
        sizes: sizes.under(rules),
        seed,
        heights,
        frames,
        intruded,
        screens,
    })
}
