ghost use Rattle.std.specs.Prelude.{OnOk};
ghost use Rattle.reconcile.specs.GiftState.{Learns};

use message_types::{Body, Frame, Signed};
use plain_lists::{Copied, Want};
use reconcile::Gifts;

/// Has the gifts take a part, if it is a request or an acknowledgement.
pub fn take_gift_part(gifts: &mut Gifts, part: &Frame) -> Result<(), Want>
    ensures { OnOk result (Learns gifts.old gifts.new part.now) }
{
    match &part.body {
        Body::PoRequest(request) => gifts.take_request(&Signed {
            signer: part.signer,
            body: request.copy()?,
            sig: part.sig.copy()?,
        }),
        Body::PoAck(ack) => gifts.take_ack(&Signed {
            signer: part.signer,
            body: *ack,
            sig: part.sig.copy()?,
        }),
        _ => Ok(()),
    }
}
