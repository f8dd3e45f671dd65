use message_types::{Body, Frame, PoSummary, PrePrepare, Signed};
use plain_lists::{Bytes, Copied, Items, Same, Want};
use std::alloc::Global;
use std::test::Fail;

// A preprepare with one summary of one number.
fn offered(alloc: Global, number: u64) -> Result<Frame, Want> {
    let mut numbers = Items::new(alloc);
    numbers.push(number)?;
    let summary = Signed {
        signer: 1,
        body: PoSummary { numbers },
        sig: Bytes::from_slice(alloc, b"master")?,
    };
    let mut frames = Items::new(alloc);
    frames.push(summary)?;
    Ok(Signed {
        signer: 0,
        body: Body::PrePrepare(PrePrepare { v: 0, s: 1, frames }),
        sig: Bytes::from_slice(alloc, b"leader")?,
    })
}

#[test]
fn a_copy_is_the_same_and_another_frame_is_not(rt: HostRuntime) -> Result<(), Fail> {
    let frame = offered(rt.alloc(), 7)?;
    let copy = frame.copy()?;
    assert!(rt; copy.is_same(&frame));
    let other = offered(rt.alloc(), 8)?;
    assert!(rt; !copy.is_same(&other));
    Ok(())
}
