ghost use Rattle.std.specs.Prelude.{◌≡◌, IfOk, IsTrue};
ghost use Rattle.message_types.specs.Spelling.{body_fits};
ghost use Rattle.protocol_rules.specs.Group.{group_of};
ghost use Rattle.intruder_words.specs.Speaking.{are_spelled, digest_in, digest_named};

use crate::naming::named;
use message_types::{Body, Frame, rows_digest, update_digest};
use plain_lists::Want;
use play_words::Ref;
use protocol_rules::rows_of;
use quorum_sets::Sizes;
use std::alloc::Global;

/// The digest of a request's update, or of a preprepare's rows.
fn digest_in(alloc: Global, sizes: &Sizes, frame: &Frame) -> Result<Option<[u8; 32]>, Want>
    requires { IsTrue (body_fits frame.now.body) }
    ensures { IfOk result (λ digest. digest ≡ digest_in (group_of sizes.now 0) frame.now) }
{
    match &frame.body {
        Body::PoRequest(request) => Ok(Some(update_digest(&request.update.body))),
        Body::PrePrepare(proposal) => {
            let rows = rows_of(alloc, sizes, proposal.frames.as_slice())?;
            Ok(Some(rows_digest(&rows)))
        }
        _ => Ok(None),
    }
}

/// The digest that a word means by the named frame.
pub fn digest_named(
    alloc: Global,
    sizes: &Sizes,
    known: &[Frame],
    which: Ref,
) -> Result<Option<[u8; 32]>, Want>
    requires { IsTrue (are_spelled known.now) }
    ensures { IfOk result (λ digest. digest ≡ digest_named (group_of sizes.now 0) known.now which) }
{
    match named(known, which) {
        Some(frame) => digest_in(alloc, sizes, frame),
        None => Ok(None),
    }
}
