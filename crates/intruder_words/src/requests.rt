ghost use Rattle.std.specs.Prelude.{◌≡◌, ◌++◌, ◌∷◌, [], OnOk, IfOk, Some, filter, if◌then◌else◌};
ghost use Rattle.std.specs.List.{list_any, filter_map};
ghost use Rattle.std.specs.Option.{option_to_list};
ghost use Rattle.protocol_rules.specs.Words.{first_of_list};
ghost use Rattle.protocol_rules.specs.Group.{group_of};
ghost use Rattle.protocol_rules.specs.Preorder.{certified, update_requested, is_ack, is_acked};
ghost use Rattle.protocol_rules.specs.Reconcile.{ack_of, quorum_of_acks};
ghost use Rattle.reconcile.specs.GiftState.{request_with};
ghost use Rattle.intruder_words.specs.Certifying.{is_about, first_acked};
ghost use Rattle.intruder_words.specs.Speaking.{give_with, give_of};

use message_types::{Body, Frame, Give, PoAck, PoRequest, Signed, Update, update_digest};
use plain_lists::{Copied, Items, Want, extend_option};
use quorum_sets::Sizes;
use std::alloc::Global;

/// The update of a frame that is request `k` of master `j`.
fn update_requested(frame: &Frame, j: u32, k: u64) -> Option<Update>
    ensures { result ≡ update_requested j k frame.now }
{
    match &frame.body {
        Body::PoRequest(request) if frame.signer == j && request.k == k => {
            Some(request.update.body)
        }
        _ => None,
    }
}

fn is_ack(frame: &Frame, j: u32, k: u64, digest: [u8; 32], master: u32) -> bool
    ensures { result ≡ is_ack j k digest master frame.now }
{
    match &frame.body {
        Body::PoAck(ack) => {
            frame.signer == master && ack.j == j && ack.k == k && ack.digest == digest
        }
        _ => false,
    }
}

/// Whether the master acknowledged the request with this digest.
fn has_acked(known: &[Frame], j: u32, k: u64, digest: [u8; 32], master: u32) -> bool
    ensures { result ≡ list_any (is_ack j k digest master) known.now }
{
    known
        .iter()
        .any(|frame| is_ack(frame, j, k, digest, master))
}

/// Whether a quorum acknowledged the request with this digest.
fn is_acked(sizes: &Sizes, known: &[Frame], j: u32, k: u64, digest: [u8; 32]) -> bool
    ensures { result ≡ is_acked (group_of sizes.now 0) known.now j k digest }
{
    let mut count = 0;
    for master in 0..sizes.n {
        count += u32::from(has_acked(known, j, k, digest, master));
    }
    count >= sizes.q
}

/// Of the updates requested the first that a quorum acknowledged.
fn first_acked(sizes: &Sizes, known: &[Frame], j: u32, k: u64) -> Option<Update>
    ensures { result ≡ first_acked (group_of sizes.now 0) j k known.now }
{
    known
        .iter()
        .filter_map(|frame| update_requested(frame, j, k))
        .find(|update| is_acked(sizes, known, j, k, update_digest(update)))
}

/// The update that was certified first, as the frames became known one by one.
fn certified_among(sizes: &Sizes, known: &[Frame], j: u32, k: u64) -> Option<Update>
    ensures { result ≡ certified (group_of sizes.now 0) known.now j k }
{
    for end in 0..known.len() {
        if let Some(update) = first_acked(sizes, &known[..end], j, k) {
            return Some(update);
        }
    }
    first_acked(sizes, known, j, k)
}

/// Whether the frame is request `k` of master `j` or an acknowledgement of it.
fn is_about(frame: &Frame, j: u32, k: u64) -> bool
    ensures { result ≡ is_about j k frame.now }
{
    match &frame.body {
        Body::PoRequest(request) => frame.signer == j && request.k == k,
        Body::PoAck(ack) => ack.j == j && ack.k == k,
        _ => false,
    }
}

fn push_if(frames: &mut Vec<Frame>, is_kept: bool, frame: &Frame) -> Result<(), Want>
    ensures { OnOk result (frames.new.items ≡ frames.old.items ++ (if is_kept then frame.now ∷ [] else [])) }
{
    if is_kept {
        frames.push(frame.copy()?)?;
    }
    Ok(())
}

/// The requests and acknowledgements of one number of a master.
fn all_about(alloc: Global, known: &[Frame], j: u32, k: u64) -> Result<Vec<Frame>, Want>
    ensures { IfOk result (λ few. few.items ≡ filter (is_about j k) known.now) }
{
    let mut few = Vec::new(alloc);
    for frame in known {
        push_if(&mut few, is_about(frame, j, k), frame)?;
    }
    Ok(few)
}

/// The update that is certified as number `k` of master `j`.
fn certified(
    alloc: Global,
    sizes: &Sizes,
    known: &[Frame],
    j: u32,
    k: u64,
) -> Result<Option<Update>, Want>
    ensures { IfOk result (λ update. update ≡ certified (group_of sizes.now 0) known.now j k) }
{
    let few = all_about(alloc, known, j, k)?;
    Ok(certified_among(sizes, &few, j, k))
}

/// The frame, where it is request `k` of master `j` of an update with this digest.
fn request_with(
    frame: &Frame,
    j: u32,
    k: u64,
    digest: [u8; 32],
) -> Result<Option<Signed<PoRequest>>, Want>
    ensures { IfOk result (λ request. request ≡ request_with j k digest frame.now) }
{
    match &frame.body {
        Body::PoRequest(request)
            if frame.signer == j
                && request.k == k
                && update_digest(&request.update.body) == digest => {
            Ok(Some(frame.with_body(request.copy()?)?))
        }
        _ => Ok(None),
    }
}

/// The first request `k` of master `j` of an update with this digest.
fn first_request(
    known: &[Frame],
    j: u32,
    k: u64,
    digest: [u8; 32],
) -> Result<Option<Signed<PoRequest>>, Want>
    ensures { IfOk result (λ request. request ≡ first_of_list (filter_map (request_with j k digest) known.now)) }
{
    for frame in known {
        let request = request_with(frame, j, k, digest)?;
        if let Some(request) = request {
            return Ok(Some(request));
        }
    }
    Ok(None)
}

/// The frame, where it is the master's acknowledgement of the request with this digest.
fn ack_of(
    frame: &Frame,
    j: u32,
    k: u64,
    digest: [u8; 32],
    master: u32,
) -> Result<Option<Signed<PoAck>>, Want>
    ensures { IfOk result (λ ack. ack ≡ ack_of j k digest master frame.now) }
{
    match &frame.body {
        Body::PoAck(ack) if is_ack(frame, j, k, digest, master) => {
            Ok(Some(frame.with_body(*ack)?))
        }
        _ => Ok(None),
    }
}

/// The master's first acknowledgement of the request with this digest.
fn first_ack(
    known: &[Frame],
    j: u32,
    k: u64,
    digest: [u8; 32],
    master: u32,
) -> Result<Option<Signed<PoAck>>, Want>
    ensures { IfOk result (λ ack. ack ≡ first_of_list (filter_map (ack_of j k digest master) known.now)) }
{
    for frame in known {
        let ack = ack_of(frame, j, k, digest, master)?;
        if let Some(ack) = ack {
            return Ok(Some(ack));
        }
    }
    Ok(None)
}

/// The first acknowledgements of the `q` lowest masters that acknowledged the request with this digest.
fn quorum_of_acks(
    alloc: Global,
    sizes: &Sizes,
    known: &[Frame],
    j: u32,
    k: u64,
    digest: [u8; 32],
) -> Result<Items<Signed<PoAck>>, Want>
    ensures { IfOk result (λ acks. acks ≡ quorum_of_acks (group_of sizes.now 0) known.now j k digest) }
{
    let mut acks = Vec::new(alloc);
    for master in 0..sizes.n {
        let ack = first_ack(known, j, k, digest, master)?;
        extend_option(&mut acks, ack)?;
    }
    acks.truncate(sizes.q as usize);
    Ok(Items::from_vec(alloc, acks))
}

/// The gift of a request that is certified with this update. The first known request with the update's digest is the first
/// with the update.
fn give_with(
    alloc: Global,
    sizes: &Sizes,
    known: &[Frame],
    j: u32,
    k: u64,
    update: &Update,
) -> Result<Option<Give>, Want>
    requires { certified (group_of sizes.now 0) known.now j k ≡ Some update.now }
    ensures { IfOk result (λ gift. gift ≡ give_with (group_of sizes.now 0) known.now j k update.now) }
{
    let digest = update_digest(update);
    let request = first_request(known, j, k, digest)?;
    let Some(request) = request else {
        return Ok(None);
    };
    let acks = quorum_of_acks(alloc, sizes, known, j, k, digest)?;
    Ok(Some(Give { request, acks }))
}

/// The gift of number `k` of master `j`. None exactly where it isn't certified.
pub fn give_of(
    alloc: Global,
    sizes: &Sizes,
    known: &[Frame],
    j: u32,
    k: u64,
) -> Result<Option<Give>, Want>
    ensures { IfOk result (λ gift. gift ≡ give_of (group_of sizes.now 0) known.now j k) }
{
    let update = certified(alloc, sizes, known, j, k)?;
    match update {
        Some(update) => give_with(alloc, sizes, known, j, k, &update),
        None => Ok(None),
    }
}
