//! Which of the masters' answers a board shows.
ghost use Rattle.std.specs.Prelude.{◌≡◌};

use plain_lists::{Copied, Items, Want};
use quorum_sets::Sizes;
use std::alloc::Global;
use std::test::Fail;
use trend_archive::{Changed, Changes, TrendBoard};

/// The answer that update 1 gave point 0 this value, and updates 2 to 6 no other.
fn answer(alloc: Global, value: i64) -> Result<Changes, Want> {
    let mut items = Items::new(alloc);
    items.push(Changed { number: 1, value })?;
    Ok(Changes {
        point: 0,
        first: 1,
        last: 6,
        items,
    })
}

/// The value of the answer that is shown.
fn shown(board: &TrendBoard) -> Option<i64> {
    let changes = board.shown()?;
    let change = changes.items.get(0)?;
    Some(change.value)
}

/// What is shown once master 2 answered twice, and masters 1, 3 and 0 after it, each of the two answers told by two.
fn shown_in_turn(
    board: &mut TrendBoard,
    amps: &Changes,
    other: &Changes,
) -> Result<[Option<i64>; 4], Want>
    requires { board.old.n ≡ 4 }
{
    board.take(2, amps)?;
    board.take(2, &amps.copy()?)?;
    let by_one = shown(board);
    board.take(1, other)?;
    let by_one_each = shown(board);
    board.take(3, amps)?;
    let by_two = shown(board);
    board.take(0, other)?;
    Ok([by_one, by_one_each, by_two, shown(board)])
}

#[test]
fn a_board_shows_what_two_masters_answer(rt: HostRuntime) -> Result<(), Fail> {
    let mut board = TrendBoard::make(rt.alloc(), Sizes::new(1, 0)?);
    let amps = answer(rt.alloc(), 9500)?;
    let other = answer(rt.alloc(), -9500)?;
    let values = shown_in_turn(&mut board, &amps, &other)?;
    assert_eq!(rt; values, [None, None, Some(9500), Some(9500)]);
    Ok(())
}
