ghost use Rattle.std.specs.Prelude.{◌≡◌, ◌++◌, OnOk, IfOk, take};
ghost use Rattle.std.specs.List.{filter_map};
ghost use Rattle.std.specs.Option.{option_to_list};
ghost use Rattle.quorum_sets.specs.Masters.{numbers_below};
ghost use Rattle.reconcile.specs.GiftState.{ack_among};

use indexmap::IndexMap;
use message_types::{PoAck, Signed};
use plain_lists::{Bytes, Copied, Items, Want};
use quorum_sets::Sizes;
use std::alloc::Global;

/// The signature of each master's first acknowledgement of a request, by the request's master, its number, the
/// digest and the master that acknowledged.
pub type Acks = IndexMap<(u32, u64, [u8; 32], u32), Bytes>;

/// The first acknowledgements of the `q` lowest masters that acknowledged this.
pub fn lowest_acks(
    alloc: Global,
    acks: &Acks,
    sizes: &Sizes,
    j: u32,
    k: u64,
    digest: [u8; 32],
) -> Result<Items<Signed<PoAck>>, Want>
    ensures { IfOk result (λ frames. frames ≡ take sizes.now.q (filter_map (ack_among acks.now.entries j k digest) (numbers_below sizes.now.n))) }
{
    let mut frames = Vec::new(alloc);
    for master in 0..sizes.n {
        push_ack(&mut frames, acks, j, k, digest, master)?;
    }
    frames.truncate(sizes.q as usize);
    Ok(Items::from_vec(alloc, frames))
}

fn push_ack(
    frames: &mut Vec<Signed<PoAck>>,
    acks: &Acks,
    j: u32,
    k: u64,
    digest: [u8; 32],
    signer: u32,
) -> Result<(), Want>
    ensures { OnOk result (frames.new.items ≡ frames.old.items ++ option_to_list (ack_among acks.now.entries j k digest signer)) }
{
    if let Some(sig) = acks.get(&(j, k, digest, signer)) {
        let body = PoAck { j, k, digest };
        let sig = sig.copy()?;
        frames.push(Signed { signer, body, sig })?;
    }
    Ok(())
}
