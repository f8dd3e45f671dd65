ghost use Rattle.std.specs.Prelude.{◌≡◌, ◌+◌, ◌<◌, ◌≤◌, ◌∷◌, [], IfOk, OnOk, replicate};

use execution::Run;
use message_types::{Op, Rows, Update};
use plain_lists::{Items, Vector, Want};
use quorum_sets::Sizes;
use std::alloc::Global;
use std::test::Fail;

fn row(alloc: Global, first: u64, second: u64) -> Result<Vector, Want>
    ensures { IfOk result (λ row. row ≡ first ∷ second ∷ 0 ∷ 0 ∷ []) }
{
    let numbers = Vec::from_array(alloc, [first, second, 0, 0])?;
    Ok(Items::from_vec(alloc, numbers))
}

/// Has a run of four masters take the rows of four summaries that agree.
fn take_agreed(alloc: Global, run: &mut Run, first: u64, second: u64) -> Result<(), Want>
    requires masters { run.old.group.n ≡ 4 }
    requires first { first ≤ 4096 }
    requires second { second ≤ 4096 }
    requires number { run.old.numbers < 4096 }
    ensures group { run.new.group ≡ run.old.group }
    ensures number { OnOk result (run.new.numbers ≡ run.old.numbers + 1) }
{
    let rows = four_rows(alloc, first, second)?;
    run.take_rows(&rows)
}

fn four_rows(alloc: Global, first: u64, second: u64) -> Result<Rows, Want>
    ensures { IfOk result (λ rows. rows ≡ replicate 4 (first ∷ second ∷ 0 ∷ 0 ∷ [])) }
{
    let rows = Vec::from_array(
        alloc,
        [
            row(alloc, first, second)?,
            row(alloc, first, second)?,
            row(alloc, first, second)?,
            row(alloc, first, second)?,
        ],
    )?;
    Ok(Items::from_vec(alloc, rows))
}

/// Has a run take update `t` of client 0 as a certified request.
fn certify(run: &mut Run, j: u32, k: u64, t: u64) -> Result<(), Want>
    requires { 0 < run.old.group.clients }
    ensures group { run.new.group ≡ run.old.group }
    ensures numbers { run.new.numbers ≡ run.old.numbers }
{
    let update = Update {
        client: 0,
        t,
        op: Op::Ack { alarm: 7 },
    };
    run.take_certified(j, k, &update)
}

/// Four numbers' rows make (0, 1), (0, 2), (0, 3) and (1, 1) eligible one by one, which are the updates 1, 3, 2
/// and 3 of one client. So 3 is passed over until it is its turn.
#[test]
fn updates_are_executed_in_turn(rt: HostRuntime) -> Result<(), Fail> {
    let alloc = rt.alloc();
    let sizes = Sizes::new(1, 0)?;
    assert_eq!(rt; sizes.n, 4);
    let mut run = Run::new(alloc, sizes, 2);
    take_agreed(alloc, &mut run, 1, 0)?;
    take_agreed(alloc, &mut run, 2, 0)?;
    certify(&mut run, 0, 1, 1)?;
    certify(&mut run, 0, 3, 2)?;
    certify(&mut run, 1, 1, 3)?;
    take_agreed(alloc, &mut run, 3, 0)?;
    take_agreed(alloc, &mut run, 3, 1)?;
    assert_eq!(rt; run.list().len(), 1);
    assert_eq!(rt; run.waiting_for(), Some((0, 2)));
    certify(&mut run, 0, 2, 3)?;
    certify(&mut run, 0, 2, 4)?;
    assert_eq!(rt; run.waiting_for(), None);
    assert_eq!(rt; run.list().len(), 3);
    for (place, update) in run.list().iter().enumerate() {
        assert_eq!(rt; update.t, [1, 2, 3][place % 3]);
    }
    Ok(())
}
