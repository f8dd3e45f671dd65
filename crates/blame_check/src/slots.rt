ghost use Rattle.std.specs.Prelude.{◌≡◌};
ghost use Rattle.blame_check.specs.Slots.{slot_of};

use indexmap::IndexMap;
use message_types::{Body, Frame};

/// A kind of words, and two numbers of a word: the request's master and number, or a view and a number that it orders.
pub type Slot = (u8, u64, u64);

/// What a master's words of a kind are kept under: the master, and the kind with its numbers.
pub type Key = (u32, u8, u64, u64);

/// The first word that each master signed for each kind and numbers.
pub type Firsts = IndexMap<Key, Frame>;

/// The kind and numbers of a word, where a correct master says one word for them.
pub fn slot_of(body: &Body) -> Option<Slot>
    ensures { result ≡ slot_of body.now }
{
    match body {
        Body::PoAck(word) => Some((3, u64::from(word.j), word.k)),
        Body::PrePrepare(word) => Some((5, word.v, word.s)),
        Body::Prepare(word) => Some((6, word.v, word.s)),
        Body::Commit(word) => Some((7, word.v, word.s)),
        _ => None,
    }
}
