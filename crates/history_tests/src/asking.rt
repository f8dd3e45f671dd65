//! What masters say once they know how slow they are, and what they ask others for.
use crate::scripts::{last_of, last_said, played};
use message_types::Body;
use std::test::Fail;
use world_history::Kept;

const ONE_SCREEN: &str = "screens = 1\n";

/// Master 3 hears of the request only by what others vouch for, and of the order.
const UPDATE_LOST: &str =
    "command s0 ack 0\nflow 1\nlose m3\nflow 2\nheal m3\ntick masters\nflow 1\ntick m0\nflow 3\ntick m3\n";

/// Master 3 is away while the first number is ordered, and back when the second one is.
const ORDER_LOST: &str =
    "command s0 ack 0\nflow 3\ntick masters\nflow 1\ntick m0\nlose m3\nflow 5\nheal m3\ncommand s0 ack 1\nflow 3\ntick masters\nflow 1\ntick m0\nflow 3\ntick m3\n";

#[test]
fn a_master_tells_the_bound_that_round_trips_give(rt: HostRuntime) -> Result<(), Fail> {
    let script = "tick masters 16\nflow 3\ntick masters\n";
    let kept = played(rt.alloc(), ONE_SCREEN, script, "")??;
    assert_eq!(rt; last_of(&kept, 0)?.stamp, 148);
    let body = last_said(&kept, 0)?;
    assert!(rt; matches!(body, Body::TatBound(bound) if bound.v == 0 && bound.ticks == 4));
    Ok(())
}

#[test]
fn a_master_asks_for_an_update_that_it_lacks(rt: HostRuntime) -> Result<(), Fail> {
    let kept = played(rt.alloc(), ONE_SCREEN, UPDATE_LOST, "")??;
    assert_eq!(rt; executed(&kept, 3)?, 0);
    let body = last_said(&kept, 3)?;
    assert!(rt; matches!(body, Body::AskUpdate(ask) if ask.j == 0 && ask.k == 1));
    Ok(())
}

#[test]
fn a_master_asks_for_an_order_that_it_lacks(rt: HostRuntime) -> Result<(), Fail> {
    let kept = played(rt.alloc(), ONE_SCREEN, ORDER_LOST, "")??;
    let body = last_said(&kept, 3)?;
    assert!(rt; matches!(body, Body::AskOrder(ask) if ask.s == 1));
    Ok(())
}

/// How many updates a master has executed.
pub(crate) fn executed(kept: &[Kept], master: usize) -> Result<usize, Fail> {
    match kept.get(master) {
        Some(kept) => Ok(kept.bench().executions().len()),
        None => Err("no such master".into()),
    }
}
