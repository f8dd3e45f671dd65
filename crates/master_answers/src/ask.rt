ghost use Rattle.std.specs.Prelude.{◌≡◌, Some};
ghost use Rattle.master_answers.specs.Asked.{ask_of};

use message_types::Frame;
use reconcile::{Wanted, asked_in};

/// What a master asks for.
#[derive(Clone, Copy)]
pub struct Ask {
    pub signer: u32,
    pub wanted: Wanted,
}

/// The ask that a frame is. None exactly where it is another word.
pub fn ask_in(frame: &Frame) -> Option<Ask>
    ensures { result ≡ ask_of (Some frame.now) }
{
    match asked_in(&frame.body) {
        Some(wanted) => Some(Ask {
            signer: frame.signer,
            wanted,
        }),
        None => None,
    }
}
