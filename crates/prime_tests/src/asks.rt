use message_types::{AskOrder, AskUpdate, Body, Ping};
use plain_lists::Want;
use quorum_sets::Sizes;
use reconcile::{Asks, Wanted};
use std::test::Fail;

/// Has a master take what others ask for.
fn take_all(asks: &mut Asks, words: &[(u32, Body)]) -> Result<(), Want> {
    for (signer, word) in words {
        asks.take(*signer, word)?;
    }
    Ok(())
}

#[test]
fn others_want_each_once(rt: HostRuntime) -> Result<(), Fail> {
    let mut asks = Asks::new(rt.alloc(), Sizes::new(1, 0)?, 0);
    let words = [
        (1, Body::AskOrder(AskOrder { s: 2 })),
        (2, Body::AskUpdate(AskUpdate { j: 3, k: 1 })),
        (1, Body::AskUpdate(AskUpdate { j: 2, k: 9 })),
        (0, Body::AskUpdate(AskUpdate { j: 1, k: 1 })),
        (3, Body::AskUpdate(AskUpdate { j: 2, k: 9 })),
        (3, Body::Ping(Ping { number: 1 })),
    ];
    take_all(&mut asks, &words)?;
    let first = Wanted::Request { j: 2, k: 9 };
    let list = asks.wanted()?;
    assert_eq!(rt;
        list.as_slice(),
        [
            first,
            Wanted::Request { j: 3, k: 1 },
            Wanted::Number { s: 2 }
        ]
        .as_slice()
    );
    asks.given(&first)?;
    let again = [(1, Body::AskUpdate(AskUpdate { j: 2, k: 9 }))];
    take_all(&mut asks, &again)?;
    assert_eq!(rt; asks.wanted()?.len(), 2);
    Ok(())
}

#[test]
fn asks_at_ticks_and_once(rt: HostRuntime) -> Result<(), Fail> {
    let mut asks = Asks::new(rt.alloc(), Sizes::new(1, 0)?, 0);
    assert_eq!(rt; asks.due(false, Some((1, 4)), Some(3))?.len(), 0);
    assert_eq!(rt; asks.due(true, Some((1, 4)), Some(3))?.len(), 2);
    assert_eq!(rt; asks.due(true, Some((1, 4)), Some(5))?.len(), 1);
    assert_eq!(rt; asks.due(true, Some((1, 5)), None)?.len(), 1);
    Ok(())
}
