ghost use Rattle.std.specs.Prelude.{◌≡◌, ◌<◌, true, length, nat_le, OnOk};
ghost use Rattle.std.specs.List.{list_all};

use message_types::{PoSummary, Signed};
use plain_lists::{Bytes, Items, Want};
use quorum_sets::Sizes;
use std::alloc::Global;
use std::test::Fail;
use summary_matrix::{Matrix, Reach, eligible};

/// Has a matrix of four masters take a summary.
pub fn take_numbers(
    alloc: Global,
    matrix: &mut Matrix,
    signer: u32,
    numbers: [u64; 4],
) -> Result<(), Want>
    requires masters { matrix.old.group.n ≡ 4 }
    requires signer { signer < 4 }
    requires four { length numbers ≡ 4 }
    requires small { list_all (λ x. nat_le x 4096) numbers ≡ true }
    ensures { OnOk result (matrix.new.group ≡ matrix.old.group) }
{
    let frame = Signed {
        signer,
        body: PoSummary {
            numbers: Items::from_vec(alloc, Vec::from_array(alloc, numbers)?),
        },
        sig: Bytes::from_slice(alloc, &[])?,
    };
    matrix.take(&frame)
}

/// Four masters, of which three are a quorum.
#[test]
fn third_greatest_numbers_are_eligible(rt: HostRuntime) -> Result<(), Fail> {
    let alloc = rt.alloc();
    let sizes = Sizes::new(1, 0)?;
    assert_eq!(rt; sizes.n, 4);
    let mut matrix = Matrix::new(alloc, sizes);
    take_numbers(alloc, &mut matrix, 0, [3, 1, 0, 0])?;
    take_numbers(alloc, &mut matrix, 1, [2, 2, 0, 0])?;
    assert!(rt; matrix.proposal(&Reach::none())?.is_none());
    take_numbers(alloc, &mut matrix, 2, [1, 5, 0, 0])?;
    take_numbers(alloc, &mut matrix, 2, [4, 2, 0, 0])?;
    assert_eq!(rt;
        matrix.eligible().numbers,
        [1, 1, 0, 0, 0, 0, 0, 0, 0, 0, 0, 0, 0, 0]
    );
    take_numbers(alloc, &mut matrix, 2, [1, 6, 0, 0])?;
    let latest = matrix.latest(2).ok_or("no summary")?;
    assert_eq!(rt; latest.body.numbers.as_slice(), [1, 6, 0, 0].as_slice());
    assert!(rt; matrix.latest(3).is_none());
    let offered = matrix.proposal(&Reach::none())?.ok_or("nothing offered")?;
    assert_eq!(rt; offered.len(), 3);
    let rows = matrix.rows()?;
    assert_eq!(rt; rows.len(), 4);
    let mut reached = Reach::none();
    reached.raise(&eligible(&sizes, &rows));
    assert!(rt; matrix.proposal(&reached)?.is_none());
    Ok(())
}
