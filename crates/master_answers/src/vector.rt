ghost use Rattle.std.specs.Prelude.{◌≡◌, ◌<◌, ◌≤◌, ℕ, slice_index};
ghost use Rattle.protocol_rules.specs.Preorder.{vector};
ghost use Rattle.preorder.specs.PreorderState.{Where};

use preorder::Preorder;
use quorum_sets::MOST_MASTERS;
use summary_matrix::Reach;

/// How far the requests of each of so many masters are certified without a gap.
pub fn vector_of(preorder: &Preorder, masters: u32) -> Reach
    requires same { masters ≡ preorder.now.group.n }
    requires few { masters ≤ MOST_MASTERS }
    ensures { Where preorder.now (λ g me taken known said. (j : ℕ) → j < masters → slice_index result.numbers j ≡ vector g known j) }
{
    let mut reach = Reach::none();
    for master in 0..masters {
        reach.numbers[master as usize] = preorder.vector(master);
    }
    reach
}
