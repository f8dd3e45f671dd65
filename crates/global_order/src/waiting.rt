ghost use Rattle.std.specs.Prelude.{◌≡◌, ◌≤◌, ◌++◌, ◌∷◌, [], List, ℕ, OnOk, None, if◌then◌else◌};
ghost use Rattle.std.specs.Str.{bytes_eq};
ghost use Rattle.indexmap.specs.IndexMap.{get, spare};
ghost use Rattle.global_order.specs.Index.{HasRoomFor, KeepsWaiting, waiting_in};

use crate::quorum::Quorum;
use indexmap::IndexMap;
use plain_lists::Want;
use std::alloc::Global;

/// The quorums that wait for rows of each digest.
pub type Waiting = IndexMap<[u8; 32], Vec<Quorum>>;

/// Makes room for one quorum more that waits for rows of a digest.
pub fn make_room(alloc: Global, waiting: &mut Waiting, digest: [u8; 32]) -> Result<(), Want>
    ensures kept { KeepsWaiting waiting.old waiting.new }
    ensures room { OnOk result (HasRoomFor digest waiting.new) }
{
    waiting.reserve(1)?;
    let mut quorums = take_out(alloc, waiting, digest);
    let made = quorums.reserve(1);
    waiting.insert(digest, quorums).unwrap();
    made?;
    waiting.reserve(1)?;
    Ok(())
}

/// Takes out the quorums that wait for rows of a digest.
fn take_out(alloc: Global, waiting: &mut Waiting, digest: [u8; 32]) -> Vec<Quorum>
    ensures quorums { result.items ≡ waiting_in (get bytes_eq waiting.old digest) }
    ensures left { (d : List ℕ) → get bytes_eq waiting.new d ≡ (if bytes_eq digest d then None else get bytes_eq waiting.old d) }
    ensures room { spare waiting.old ≤ spare waiting.new }
{
    match waiting.swap_remove(&digest) {
        None => Vec::new(alloc),
        Some(quorums) => quorums,
    }
}

/// Has a quorum wait, for which there is room.
pub fn put_waiting(waiting: &mut Waiting, quorum: Quorum)
    requires { HasRoomFor quorum.digest waiting.old }
    ensures { (d : List ℕ) → waiting_in (get bytes_eq waiting.new d) ≡ (if bytes_eq quorum.digest d then waiting_in (get bytes_eq waiting.old d) ++ quorum ∷ [] else waiting_in (get bytes_eq waiting.old d)) }
{
    match waiting.swap_remove(&quorum.digest) {
        None => {}
        Some(mut quorums) => {
            quorums.push(quorum).unwrap();
            waiting.insert(quorum.digest, quorums).unwrap();
        }
    }
}
