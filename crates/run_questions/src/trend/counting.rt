//! How many updates the correct masters executed.
ghost use Rattle.std.specs.Prelude.{◌≡◌, ◌+◌, ◌++◌, length, map, IfOk, OnOk, option_copied, option_map, option_to_list};
ghost use Rattle.std.specs.List.{filter_map};
ghost use Rattle.world_history.specs.State.{executed_if};
ghost use Rattle.protocol_rules.specs.Words.{greatest_reached as greatest_reached_of};

use history_audit::Executes;
use message_types::Update;
use plain_lists::Want;
use scenario_file::Scenario;
use std::alloc::Global;
use summary_matrix::reach::greatest_reached;
use world_history::Bench;

/// How many updates more than f correct masters executed: the (f + 1)st greatest of their numbers, 0 where there is none.
pub(crate) fn executed_by_more(
    alloc: Global,
    scenario: &Scenario,
    benches: &[Bench],
) -> Result<u64, Want>
    ensures { IfOk result (λ count. count ≡ greatest_reached_of (scenario.now.sizes.f + 1) (map length (filter_map executed_if benches.now))) }
{
    let counts = executed_counts(alloc, benches)?;
    Ok(greatest_reached(counts.as_slice(), scenario.sizes.f + 1))
}

/// How many updates each correct master executed, in the order of the benches.
fn executed_counts(alloc: Global, benches: &[Bench]) -> Result<Vec<u64>, Want>
    ensures { IfOk result (λ counts. counts.items ≡ map length (filter_map executed_if benches.now)) }
{
    let mut counts = Vec::new(alloc);
    for bench in benches {
        push_count(&mut counts, Executes::executions(bench))?;
    }
    Ok(counts)
}

fn push_count(counts: &mut Vec<u64>, executed: Option<&[Update]>) -> Result<(), Want>
    ensures { OnOk result (counts.new.items ≡ counts.old.items ++ option_to_list (option_map length (option_copied executed.entry))) }
{
    if let Some(updates) = executed {
        counts.push(updates.len() as u64)?;
    }
    Ok(())
}
