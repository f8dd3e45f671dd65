ghost use Rattle.std.specs.Prelude.{◌≡◌, ◌↔◌, ℕ, ◌<◌, ◌≤◌, List, [], length, IsTrue, false, not, slice_get};
ghost use Rattle.std.specs.List.{slice_index_or};
ghost use Rattle.quorum_sets.specs.Masters.{has_master, voters, with_master};
ghost use Rattle.quorum_sets.specs.Quorum.{IsQuorum};
ghost use Rattle.quorum_sets.specs.declared.limits.TheConstants.{MOST_MASTERS};

use crate::limits::{MASTER_PLACES, MOST_MASTERS};
use crate::sizes::Sizes;
use std::marker::Model;

/// A set of masters, seen as the rising list of their numbers. Two votes of one master count once.
#[derive(Drop)]
pub struct VoterSet {
    marked: [bool; MASTER_PLACES],
}

impl Model for VoterSet {
    ghost Value = { List ℕ };

    ghost view = { λ set. voters (λ m. slice_index_or set.marked m false) MOST_MASTERS };
}

impl VoterSet {
    pub fn empty() -> VoterSet
        ensures { result ≡ [] }
    {
        VoterSet {
            marked: [false; MASTER_PLACES],
        }
    }

    /// An equal set, which takes no memory.
    pub fn copied(&self) -> VoterSet
        ensures { result ≡ self.now }
    {
        VoterSet {
            marked: self.marked,
        }
    }

    /// Puts a master in, and says whether it wasn't there.
    pub fn add(&mut self, master: u32) -> bool
        requires { master < MOST_MASTERS }
        ensures answer { result ≡ not (has_master self.old master) }
        ensures added { self.new ≡ with_master self.old master }
    {
        let place = master as usize;
        let was = self.marked[place];
        self.marked[place] = true;
        !was
    }

    pub fn len(&self) -> u32
        ensures { result ≡ length self.now }
    {
        self.count_below(MOST_MASTERS)
    }

    pub fn is_empty(&self) -> bool
        ensures { IsTrue result ↔ (self.now ≡ []) }
    {
        self.len() == 0
    }

    pub fn has(&self, master: u32) -> bool
        ensures { result ≡ has_master self.now master }
    {
        master < MOST_MASTERS && self.marked[master as usize]
    }

    /// Whether at least `q` masters of the set are below `n`.
    pub fn is_quorum(&self, sizes: &Sizes) -> bool
        ensures { IsTrue result ↔ IsQuorum sizes.now.n sizes.now.q self.now }
    {
        self.count_below(sizes.n) >= sizes.q
    }

    fn count_below(&self, n: u32) -> u32
        requires { n ≤ MOST_MASTERS }
        ensures below { result ≡ length (voters (has_master self.now) n) }
        ensures all { n ≡ MOST_MASTERS → result ≡ length self.now }
    {
        let mut count = 0;
        for master in 0..n {
            count += u32::from(self.marked[master as usize]);
        }
        count
    }
}
