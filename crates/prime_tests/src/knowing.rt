ghost use Rattle.std.specs.Prelude.{◌≡◌, ◌<◌, IfOk, true};
ghost use Rattle.protocol_rules.specs.Group.{Group};
ghost use Rattle.master_knowledge.specs.Whole.{is_whole};

use master_knowledge::Knowledge;
use message_types::{Body, Frame, Ping, Pong, Signed};
use plain_lists::{Bytes, Want};
use quorum_sets::Sizes;
use std::alloc::Global;
use std::test::Fail;

/// Ping number 7 of a master.
fn ping(alloc: Global, signer: u32) -> Result<Frame, Want>
    ensures { IfOk result (λ f. (g : Group) → signer < g.n → is_whole g f ≡ true) }
{
    Ok(Signed {
        signer,
        body: Body::Ping(Ping { number: 7 }),
        sig: Bytes::from_slice(alloc, &[])?,
    })
}

#[test]
fn a_ping_heard_is_answered_and_an_own_one_is_not(rt: HostRuntime) -> Result<(), Fail> {
    let alloc = rt.alloc();
    let sizes = Sizes::new(1, 0)?;
    assert_eq!(rt; sizes.n, 4);
    let mut knowledge = Knowledge::new(alloc, sizes, 1, 1);
    knowledge.recall(&ping(alloc, 1)?)?;
    knowledge.hear(&ping(alloc, 2)?)?;
    knowledge.catch_up()?;
    assert!(rt; !knowledge.waits());
    let answers = knowledge.measure.due(0, false)?;
    assert_eq!(rt; answers.len(), 1);
    assert!(rt; matches!(answers[0], Body::Pong(Pong { to: 2, number: 7 })));
    Ok(())
}
