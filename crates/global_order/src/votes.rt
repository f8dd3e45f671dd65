ghost use Rattle.std.specs.Prelude.{◌≡◌, ◌≤◌, ◌++◌, length, take, option_copied, IfOk, OnOk, OnErr};
ghost use Rattle.std.specs.Option.{option_to_list, option_map};
ghost use Rattle.indexmap.specs.IndexMap.{IsUnchanged};
ghost use Rattle.global_order.specs.Index.{TakesFirst, same_vote, same_pair, given, vote_at, mark_at, signed_by};

use indexmap::IndexMap;
use message_types::Signed;
use plain_lists::{Bytes, Copied, Items, Want};
use quorum_sets::Sizes;
use std::alloc::Global;

/// The signature of each master's first vote for a view, a number and a digest.
pub type Votes = IndexMap<(u64, u64, [u8; 32], u32), Bytes>;

/// The signature of each master's first mark of a number.
pub type Marks = IndexMap<(u64, u32), Bytes>;

/// Notes a vote, unless one of its master is there.
pub fn note_vote(
    votes: &mut Votes,
    vote: (u64, u64, [u8; 32], u32),
    sig: &Bytes,
) -> Result<(), Want>
    ensures noted { OnOk result (TakesFirst same_vote votes.old votes.new vote sig.now) }
    ensures refused { OnErr result (IsUnchanged votes.old votes.new) }
{
    if votes.contains_key(&vote) {
        return Ok(());
    }
    votes.insert(vote, sig.copy()?)?;
    Ok(())
}

/// Notes a mark, unless one of its master is there.
pub fn note_mark(marks: &mut Marks, mark: (u64, u32), sig: &Bytes) -> Result<(), Want>
    ensures noted { OnOk result (TakesFirst same_pair marks.old marks.new mark sig.now) }
    ensures refused { OnErr result (IsUnchanged marks.old marks.new) }
{
    if marks.contains_key(&mark) {
        return Ok(());
    }
    marks.insert(mark, sig.copy()?)?;
    Ok(())
}

/// How many of the first `n` masters voted so.
pub fn count_votes(votes: &Votes, n: u32, v: u64, s: u64, digest: [u8; 32]) -> u32
    ensures { result ≡ length (given (vote_at votes.now v s digest) n) }
{
    let mut count = 0;
    for master in 0..n {
        count += u32::from(votes.contains_key(&(v, s, digest, master)));
    }
    count
}

/// How many of the first `n` masters marked the number.
pub fn count_marks(marks: &Marks, n: u32, s: u64) -> u32
    ensures { result ≡ length (given (mark_at marks.now s) n) }
{
    let mut count = 0;
    for master in 0..n {
        count += u32::from(marks.contains_key(&(s, master)));
    }
    count
}

/// The first votes of the `q` lowest masters that voted so, each with the body that such a vote has.
pub fn votes_of<B: Copy + Drop>(
    alloc: Global,
    votes: &Votes,
    sizes: &Sizes,
    v: u64,
    s: u64,
    digest: [u8; 32],
    body: B,
) -> Result<Items<Signed<B>>, Want>
    ensures { IfOk result (λ frames. frames ≡ take sizes.now.q (given (λ m. option_map (signed_by body m) (vote_at votes.now v s digest m)) sizes.now.n)) }
{
    let mut frames = Vec::new(alloc);
    for master in 0..sizes.n {
        push_signed(
            &mut frames,
            master,
            body,
            votes.get(&(v, s, digest, master)),
        )?;
    }
    frames.truncate(sizes.q as usize);
    Ok(Items::from_vec(alloc, frames))
}

/// Adds the frame of a master whose signature is there.
pub fn push_signed<B: Drop>(
    frames: &mut Vec<Signed<B>>,
    signer: u32,
    body: B,
    sig: Option<&Bytes>,
) -> Result<(), Want>
    ensures { OnOk result (frames.new.items ≡ frames.old.items ++ option_to_list (option_map (signed_by body signer) (option_copied sig.entry))) }
{
    if let Some(sig) = sig {
        let sig = sig.copy()?;
        frames.push(Signed { signer, body, sig })?;
    }
    Ok(())
}
