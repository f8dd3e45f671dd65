ghost use Rattle.std.specs.Prelude.{◌≡◌, IfOk, true};
ghost use Rattle.message_types.specs.Spelling.{has_spelling};

use intruder_words::Overheard;
use message_forms::write_frame;
use message_types::{Body, Frame, Op, PoRequest, Report, Signed, Update};
use plain_lists::{Bytes, Items, Want};
use play_words::{Ref, Word};
use quorum_sets::Sizes;
use std::alloc::Global;
use std::test::Fail;

/// The first update of client 0 of a group of four masters.
fn update(alloc: Global) -> Result<Frame, Want>
    ensures { IfOk result (λ f. has_spelling f ≡ true) }
{
    Ok(Signed {
        signer: 4,
        body: Body::Update(Update {
            client: 0,
            t: 1,
            op: Op::Ack { alarm: 0 },
        }),
        sig: Bytes::from_slice(alloc, &[])?,
    })
}

/// A request for the first update that is known of client 0.
fn request() -> Word {
    Word::PoRequest {
        k: 1,
        update: Ref {
            actor: 4,
            kind: 1,
            number: 1,
        },
    }
}

#[test]
fn a_request_takes_the_update_that_was_cried(rt: HostRuntime) -> Result<(), Fail> {
    let alloc = rt.alloc();
    let sizes = Sizes::new(1, 0)?;
    let mut overheard = Overheard::new(alloc);
    overheard.cry(&[0, 1, 2])?;
    assert!(rt; overheard.body(&sizes, &request())?.is_none());
    let bytes = write_frame(alloc, &update(alloc)?)?;
    overheard.cry(&bytes)?;
    let body = overheard.body(&sizes, &request())?;
    assert!(rt; matches!(body, Some(Body::PoRequest(PoRequest { k: 1, .. }))));
    Ok(())
}

#[test]
fn a_report_has_the_stable_number_as_its_base(rt: HostRuntime) -> Result<(), Fail> {
    let alloc = rt.alloc();
    let sizes = Sizes::new(1, 0)?;
    let mut overheard = Overheard::new(alloc);
    overheard.hear(&update(alloc)?)?;
    let word = Word::Report {
        v: 1,
        base: None,
        items: Items::new(alloc),
    };
    let body = overheard.body(&sizes, &word)?;
    assert!(rt; matches!(body, Some(Body::Report(Report { v: 1, base: 0, .. }))));
    Ok(())
}
