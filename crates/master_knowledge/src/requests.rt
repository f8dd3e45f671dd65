ghost use Rattle.std.specs.Prelude.{◌≡◌, OnOk, true};
ghost use Rattle.protocol_rules.specs.Places.{in_place};
ghost use Rattle.preorder.specs.PreorderState.{Takes, Learns};

use message_types::{Body, Frame, Signed};
use plain_lists::{Copied, Want};
use preorder::Preorder;

/// Has pre-ordering take a frame that came as one of its own, if it is an update.
pub fn take_update(preorder: &mut Preorder, frame: &Frame) -> Result<(), Want>
    ensures group { preorder.new.group ≡ preorder.old.group }
    ensures ok { OnOk result (Takes preorder.old preorder.new frame.now) }
{
    match &frame.body {
        Body::Update(update) => preorder.take_update(&Signed {
            signer: frame.signer,
            body: *update,
            sig: frame.sig.copy()?,
        }),
        _ => Ok(()),
    }
}

/// Has pre-ordering take a part, if it is a request or an acknowledgement.
pub fn take_request_part(preorder: &mut Preorder, part: &Frame) -> Result<(), Want>
    requires { in_place preorder.old.group part.now ≡ true }
    ensures group { preorder.new.group ≡ preorder.old.group }
    ensures ok { OnOk result (Learns preorder.old preorder.new part.now) }
{
    match &part.body {
        Body::PoRequest(request) => preorder.take_request(&Signed {
            signer: part.signer,
            body: request.copy()?,
            sig: part.sig.copy()?,
        }),
        Body::PoAck(ack) => preorder.take_ack(&Signed {
            signer: part.signer,
            body: *ack,
            sig: part.sig.copy()?,
        }),
        _ => Ok(()),
    }
}
