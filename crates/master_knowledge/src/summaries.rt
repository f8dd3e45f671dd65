ghost use Rattle.std.specs.Prelude.{◌≡◌, OnOk};
ghost use Rattle.summary_matrix.specs.Held.{Learns};
ghost use Rattle.master_knowledge.specs.Whole.{IsWhole};

use message_types::{Body, Frame, Signed};
use plain_lists::{Copied, Want};
use summary_matrix::Matrix;

/// Has the matrix take a part, if it is a summary.
pub fn take_summary_part(matrix: &mut Matrix, part: &Frame) -> Result<(), Want>
    requires { IsWhole matrix.old.group.n part.now }
    ensures group { matrix.new.group ≡ matrix.old.group }
    ensures ok { OnOk result (Learns matrix.old matrix.new part.now) }
{
    match &part.body {
        Body::PoSummary(summary) => matrix.take(&Signed {
            signer: part.signer,
            body: summary.copy()?,
            sig: part.sig.copy()?,
        }),
        _ => Ok(()),
    }
}
