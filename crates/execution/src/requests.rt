ghost use Rattle.std.specs.Prelude.{◌≡◌, ◌≤◌, ◌++◌, OnOk, IfOk, map};
ghost use Rattle.protocol_rules.specs.Execution.{requests_between};
ghost use Rattle.execution.specs.Ran.{request_of};
ghost use Rattle.execution.specs.Progress.{requests_from};

use plain_lists::Want;
use quorum_sets::MOST_MASTERS;
use std::alloc::Global;
use summary_matrix::Reach;

/// The requests, as master and number, after those reached up to those reached now, by master.
pub fn newly_eligible(
    alloc: Global,
    masters: u32,
    reached: &Reach,
    now: &Reach,
) -> Result<Vec<(u32, u64)>, Want>
    requires { masters ≤ MOST_MASTERS }
    ensures { IfOk result (λ fresh. map request_of fresh.items ≡ requests_from masters reached.now.numbers now.now.numbers) }
{
    let mut fresh = Vec::new(alloc);
    for master in 0..masters {
        let place = master as usize;
        push_requests(
            &mut fresh,
            master,
            reached.numbers[place],
            now.numbers[place],
        )?;
    }
    Ok(fresh)
}

fn push_requests(fresh: &mut Vec<(u32, u64)>, master: u32, from: u64, to: u64) -> Result<(), Want>
    ensures { OnOk result (map request_of fresh.new.items ≡ map request_of fresh.old.items ++ requests_between master from to) }
{
    for number in from..to {
        fresh.push((master, number + 1))?;
    }
    Ok(())
}
