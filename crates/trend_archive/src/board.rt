ghost use Rattle.std.specs.Prelude.{◌≡◌, ◌++◌, ◌∷◌, ◌<◌, [], List, length, option_copied, OnOk, OnErr};
ghost use Rattle.trend_archive.specs.declared.board.Vote.{Vote};
ghost use Rattle.trend_archive.specs.Boards.{IsShownAt, has_vote, is_vote, shown, supporters};

use crate::change::Changes;
use plain_lists::{Copied, Same, Want};
use quorum_sets::Sizes;
use std::alloc::Global;
use std::marker::Model;

/// A master's answer to the question.
#[derive(Drop)]
pub struct Vote {
    pub signer: u32,
    pub changes: Changes,
}

/// The masters' answers so far, and the place of the one that is shown.
pub struct TrendBoard {
    sizes: Sizes,
    votes: Vec<Vote, Global>,
    place: Option<usize>,
}

// Taken apart here once, so that no crate above proves it again.
impl Drop for TrendBoard {
    fn drop(self) {
        let TrendBoard {
            sizes: _,
            votes: _,
            place: _,
        } = self;
    }
}

impl Model for TrendBoard {
    ghost use Rattle.trend_archive.specs.Boards.{IsShownAt, Tally, shown};

    ghost Value = { Tally };

    ghost view = { λ board. record { n = board.sizes.n; f = board.sizes.f; votes = board.votes.items } };

    ghost invariant = { λ board. IsShownAt board.place board.votes.items (shown board.sizes.n board.sizes.f board.votes.items) };
}

impl TrendBoard {
    /// A board before any answer. It takes no memory.
    pub fn make(alloc: Global, sizes: Sizes) -> TrendBoard
        ensures { result ≡ record { n = sizes.n; f = sizes.f; votes = [] } }
    {
        TrendBoard {
            sizes,
            votes: Vec::new(alloc),
            place: None,
        }
    }

    /// Takes a master's answer. Without memory for it nothing changes.
    pub fn take(&mut self, signer: u32, changes: &Changes) -> Result<(), Want>
        requires { signer < self.old.n }
        ensures ok { OnOk result (self.new ≡ record self.old { votes = self.old.votes ++ record { signer = signer; changes = changes.now } ∷ [] }) }
        ensures err { OnErr result (self.new ≡ self.old) }
    {
        let changes = changes.copy()?;
        self.votes.push(Vote { signer, changes })?;
        self.place = place_after(&self.sizes, self.votes.as_slice(), self.place);
        Ok(())
    }

    /// The answer that more than f masters gave, as the first that so many did; None where no answer is one of so many.
    pub fn shown(&self) -> Option<&Changes>
        ensures { option_copied result ≡ shown self.now.n self.now.f self.now.votes }
    {
        let place = self.place?;
        let vote = self.votes.get(place)?;
        Some(&vote.changes)
    }
}

// The place of the answer that is shown, the last vote counted too.
fn place_after(sizes: &Sizes, votes: &[Vote], place: Option<usize>) -> Option<usize>
    ensures { (before : List Vote) (vote : Vote) → votes.now ≡ before ++ vote ∷ [] → IsShownAt place before (shown sizes.now.n sizes.now.f before) → IsShownAt result votes.now (shown sizes.now.n sizes.now.f votes.now) }
{
    if place.is_some() {
        return place;
    }
    let (last, before) = votes.split_last()?;
    if count_supporters(sizes, votes, &last.changes) > sizes.f {
        Some(before.len())
    } else {
        None
    }
}

// How many masters gave this answer.
fn count_supporters(sizes: &Sizes, votes: &[Vote], changes: &Changes) -> u32
    ensures { result ≡ length (supporters sizes.now.n votes.now changes.now) }
{
    let mut count = 0;
    for master in 0..sizes.n {
        count += u32::from(has_vote(votes, changes, master));
    }
    count
}

fn has_vote(votes: &[Vote], changes: &Changes, master: u32) -> bool
    ensures { result ≡ has_vote votes.now changes.now master }
{
    votes.iter().any(|vote| is_vote(vote, changes, master))
}

fn is_vote(vote: &Vote, changes: &Changes, master: u32) -> bool
    ensures { result ≡ is_vote changes.now master vote.now }
{
    vote.signer == master && vote.changes.is_same(changes)
}
