ghost use Rattle.std.specs.Prelude.{OnOk};
ghost use Rattle.view_change.specs.ViewState.{Learns};
ghost use Rattle.master_knowledge.specs.Whole.{IsWhole};

use message_types::{Body, Frame, Signed};
use plain_lists::{Copied, Want};
use view_change::Views;

/// Has the views take a part, if it is a suspicion, a report or a new view.
pub fn take_view_part(views: &mut Views, part: &Frame) -> Result<(), Want>
    requires { IsWhole views.old.group.n part.now }
    ensures ok { OnOk result (Learns views.old views.new part.now) }
{
    match &part.body {
        Body::Suspect(suspect) => views.take_suspect(part.signer, suspect.v),
        Body::Report(report) => views.take_report(&Signed {
            signer: part.signer,
            body: report.copy()?,
            sig: part.sig.copy()?,
        }),
        Body::NewView(new_view) => views.take_new_view(&Signed {
            signer: part.signer,
            body: new_view.copy()?,
            sig: part.sig.copy()?,
        }),
        _ => Ok(()),
    }
}
