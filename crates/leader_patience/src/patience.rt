ghost use Rattle.std.specs.Prelude.{◌≡◌, ◌<◌, ◌≤◌, ℕ, true, List, [], IfOk, OnErr};
ghost use Rattle.std.specs.List.{filter_map, list_all};
ghost use Rattle.quorum_sets.specs.Masters.{numbers_below};
ghost use Rattle.message_types.specs.declared.body.Body.TheVariants as body;
ghost use Rattle.protocol_rules.specs.Group.{Group, group_of};
ghost use Rattle.protocol_rules.specs.Patience.{patience as patience_of, votes_due};
ghost use Rattle.suspect_leader.specs.MeasureState.{is_word_in_place};
ghost use Rattle.leader_patience.specs.PatienceState.{IsPatienceOf, Learns, Says, Where, view_of_vote, votes_to_kept, vote_at};

use message_types::{Body, Suspect};
use plain_lists::{Want, extend_option};
use protocol_rules::{BEAT, FIRST_PATIENCE, FORGIVEN_STEP, MOST_DOUBLINGS, MOST_VIEW};
use quorum_sets::{MASTER_PLACES, Sizes};
use std::alloc::Global;
use std::marker::Model;
use suspect_leader::ranked::Ranked;

/// How far each master voted, as one more than the greatest view that it voted against, and how far this one did: against
/// each view below that.
pub struct Patience {
    alloc: Global,
    sizes: Sizes,
    voted: [u64; MASTER_PLACES],
    own: u64,
}

// Taken apart here once, so that no crate above proves it again.
impl Drop for Patience {
    fn drop(self) {
        let Patience {
            alloc: _,
            sizes: _,
            voted: _,
            own: _,
        } = self;
    }
}

impl Model for Patience {
    ghost use Rattle.protocol_rules.specs.Group.{group_of};
    ghost use Rattle.leader_patience.specs.PatienceState.{PatienceState};

    ghost Value = { PatienceState };

    ghost view = { λ m. record { group = group_of m.sizes 0; voted = m.voted; own = m.own } };
}

impl Patience {
    /// The patience of a master that knows no word and said nothing.
    pub fn new(alloc: Global, sizes: Sizes) -> Patience
        ensures { (clients : ℕ) → IsPatienceOf (group_of sizes clients) result [] [] }
    {
        Patience {
            alloc,
            sizes,
            voted: [0; MASTER_PLACES],
            own: 0,
        }
    }

    /// Takes the next word known. Only votes of masters change anything. A vote in its place is against no view above the
    /// last.
    pub fn take(&mut self, signer: u32, body: &Body)
        requires { view_of_vote body.now ≤ MOST_VIEW }
        ensures { (sig : List ℕ) → Learns self.old self.new record { signer = signer; body = body.now; sig = sig } }
    {
        if signer >= self.sizes.n {
            return;
        }
        if let Body::Suspect(word) = body {
            self.take_vote(signer, *word);
        }
    }

    fn take_vote(&mut self, signer: u32, word: Suspect)
        requires signer { signer < self.old.group.n }
        requires view { word.v ≤ MOST_VIEW }
        ensures { (sig : List ℕ) → Learns self.old self.new record { signer = signer; body = body.Suspect word; sig = sig } }
    {
        let place = signer as usize;
        self.voted[place] = self.voted[place].max(word.v + 1);
    }

    /// The wait above which the master votes against the leader of view `view` once it has had `now` ticks, in ticks: 32,
    /// doubled each time that the views went round, sixteen times at the most, where one view is forgiven for each 1,024
    /// ticks.
    pub fn patience(&self, view: u64, now: u64) -> u64
        ensures { Where self.now (λ g known said. result ≡ patience_of g view now) }
    {
        let unforgiven = view.saturating_sub(now / FORGIVEN_STEP);
        let rounds = (unforgiven / u64::from(self.sizes.n)).min(MOST_DOUBLINGS);
        FIRST_PATIENCE << rounds
    }

    /// The votes to say at an event, in view `view` and with the wait so far in ticks, once its words were taken. `now`
    /// counts all ticks, with the event's own. They count as said. Without memory for them nothing has changed.
    pub fn due(
        &mut self,
        view: u64,
        waiting: u64,
        now: u64,
        at_tick: bool,
    ) -> Result<Vec<Body>, Want>
        requires { view ≤ MOST_VIEW }
        ensures bodies { IfOk result (λ bodies. Where self.old (λ g known said.
            bodies.items ≡ votes_due g known said view waiting now at_tick)) }
        ensures counted { IfOk result (λ bodies. Says self.old self.new bodies.items) }
        ensures places { IfOk result (λ bodies. (g : Group) (me : ℕ) → me < g.n → list_all (is_word_in_place g me) bodies.items ≡ true) }
        ensures err { OnErr result (self.new ≡ self.old) }
    {
        let is_impatient = at_tick && self.patience(view, now) < waiting;
        let end = self.votes_to(view, is_impatient).min(MOST_VIEW);
        let bodies = self.list(view, now, is_impatient, end)?;
        self.own = self.own.max(end);
        Ok(bodies)
    }

    /// The votes against views below `end`. Of those below the view before the present one only new ones are due, so it
    /// begins at the first that can be.
    fn list(&self, view: u64, now: u64, is_impatient: bool, end: u64) -> Result<Vec<Body>, Want>
        requires { end ≤ MOST_VIEW }
        ensures { IfOk result (λ bodies. bodies.items ≡ filter_map (vote_at self.now view now is_impatient) (numbers_below end)) }
    {
        let mut bodies = Vec::new(self.alloc);
        let start = self.own.min(view.saturating_sub(1)).min(end);
        for against in start..end {
            extend_option(&mut bodies, self.vote(view, now, is_impatient, against))?;
        }
        Ok(bodies)
    }

    fn vote(&self, view: u64, now: u64, is_impatient: bool, against: u64) -> Option<Body>
        requires { against < MOST_VIEW }
        ensures { result ≡ vote_at self.now view now is_impatient against }
    {
        let is_new = against >= self.own;
        let counts = against == view || against + 1 == view;
        if is_new || is_impatient && now % BEAT == 0 && counts {
            Some(Body::Suspect(Suspect { v: against }))
        } else {
            None
        }
    }

    /// As far as `f + k + 1` masters voted, and below the present view, which counts too where patience is at its end.
    fn votes_to(&self, view: u64, is_impatient: bool) -> u64
        requires { view ≤ MOST_VIEW }
        ensures { result ≡ votes_to_kept self.now view is_impatient }
    {
        let mut ends = Ranked::new();
        for master in 0..self.sizes.n {
            ends.put(self.voted[master as usize]);
        }
        let own = if is_impatient { view + 1 } else { view };
        ends.highest((self.sizes.f + self.sizes.k) as usize)
            .max(own)
    }
}
