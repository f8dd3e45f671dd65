ghost use Rattle.std.specs.Prelude.{◌≡◌, ◌++◌, ◌∷◌, ◌<◌, [], OnOk, List, ℕ, Option, Some};
ghost use Rattle.message_types.specs.declared.signed.Signed.{Signed as SignedWord};
ghost use Rattle.message_types.specs.declared.updates.Update.{Update as Change};
ghost use Rattle.message_types.specs.declared.body.Body.{Body as Word};
ghost use Rattle.protocol_rules.specs.Group.{Group};
ghost use Rattle.protocol_rules.specs.Master.{certified_requests};
ghost use Rattle.protocol_rules.specs.Execution.{Request};
ghost use Rattle.preorder.specs.Index.{HasCertified};
ghost use Rattle.preorder.specs.PreorderState.{certified_in};
ghost use Rattle.execution.specs.Ran.{IsRunOf};
ghost use Rattle.master_knowledge.specs.Certifying.{IsCertifiedAt};

use execution::Run;
use message_types::{Body, Frame};
use plain_lists::Want;
use preorder::Preorder;

/// Has the execution take what a part certified, once pre-ordering took the part: a request or an acknowledgement
/// may have completed the certificate of its request.
pub fn take_certificate_part(run: &mut Run, preorder: &Preorder, part: &Frame) -> Result<(), Want>
    requires clients { (j k : ℕ) (u : Change) → certified_in preorder.now j k ≡ Some u → u.client < run.old.group.clients }
    ensures group { run.new.group ≡ run.old.group }
    ensures numbers { run.new.numbers ≡ run.old.numbers }
    ensures ok { OnOk result ((g : Group) (known : List (SignedWord Word)) (runs : List (List (List ℕ)))
        → HasCertified g (known ++ part.now ∷ []) preorder.now.certificates
        → IsRunOf g run.old (certified_requests g known) runs → IsRunOf g run.new (certified_requests g (known ++ part.now ∷ [])) runs) }
{
    match &part.body {
        Body::PoRequest(request) => take_certificate(run, preorder, part.signer, request.k),
        Body::PoAck(ack) => take_certificate(run, preorder, ack.j, ack.k),
        _ => Ok(()),
    }
}

/// Has it take the certificate of request `k` of master `j`, if there is one.
fn take_certificate(run: &mut Run, preorder: &Preorder, j: u32, k: u64) -> Result<(), Want>
    requires clients { (j k : ℕ) (u : Change) → certified_in preorder.now j k ≡ Some u → u.client < run.old.group.clients }
    ensures group { run.new.group ≡ run.old.group }
    ensures numbers { run.new.numbers ≡ run.old.numbers }
    ensures ok { OnOk result ((g : Group) (certified_before certified_now : Request → Option Change) (runs : List (List (List ℕ)))
        → IsCertifiedAt j k (certified_in preorder.now j k) certified_before certified_now
        → IsRunOf g run.old certified_before runs → IsRunOf g run.new certified_now runs) }
{
    match preorder.certified(j, k) {
        Some(update) => run.take_certified(j, k, update),
        None => Ok(()),
    }
}
