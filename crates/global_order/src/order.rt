ghost use Rattle.std.specs.Prelude.{◌≡◌, ◌+◌, ◌∷◌, ◌&&◌, ◌≤◌, ◌<◌, ℕ, [], IsTrue, OnOk, OnErr, IfOk, option_copied, nat_le, not, max, if◌then◌else◌};
ghost use Rattle.std.specs.List.{list_all};
ghost use Rattle.message_types.specs.Spelling.{rows_fit};
ghost use Rattle.protocol_rules.specs.declared.facts.OrderFact.TheVariants as fact;
ghost use Rattle.protocol_rules.specs.Group.{group_of, most_number, window};
ghost use Rattle.protocol_rules.specs.Master.{gap_of};
ghost use Rattle.protocol_rules.specs.Order as rules;
ghost use Rattle.global_order.specs.Giving.{given_order};
ghost use Rattle.global_order.specs.OrderState.{IsOrderOf, Learns, Says, Stays, Where, bodies_due, bodies_up_to};

use crate::certificates::{first_certificate_of, last_certificate_of, marks_of};
use crate::choices::{Choices, learn, learn_all, note_if_committed, note_if_prepared};
use crate::due::{push_marks, push_pending_commits, push_pending_prepares};
use crate::letting::let_go;
use crate::offers::{Offers, note_plan, note_proposal, offered_in, plan_of_view};
use crate::orders::{make_order, order_of, run_end};
use crate::pending::{all_pending, first_pending, pending_from, pending_in};
use crate::said::{Said, note_said};
use crate::slots::make_slot;
use crate::views::{Views, note_view, view_of};
use crate::votes::{Marks, Votes, count_marks, count_votes, note_mark, note_vote, votes_of};
use crate::waiting::make_room;
use indexmap::IndexMap;
use message_types::{Body, Certificate, Commit, GiveOrdered, Mark, Plan, Prepare, Rows, Signed};
use plain_lists::{Copied, Items, Want, extend_option};
use protocol_rules::{MOST_NUMBER, WINDOW};
use quorum_sets::Sizes;
use std::alloc::Global;
use std::collections::HashSet;
use std::marker::Model;

/// One master's global order. Contracts say what it is of the facts that it was handed and the bodies that it said: it keeps
/// neither of these lists.
pub struct Order {
    alloc: Global,
    sizes: Sizes,
    prepares: Votes,
    commits: Votes,
    marks: Marks,
    choices: Choices,
    views: Views,
    offers: Offers,
    told: Said,
    stable: u64,
    gapless: u64,
}

// Taken apart here once, so that no crate above proves it again.
impl Drop for Order {
    fn drop(self) {
        let Order {
            alloc: _,
            sizes: _,
            prepares,
            commits,
            marks,
            choices: _,
            views,
            offers: _,
            told: _,
            stable: _,
            gapless: _,
        } = self;
        let_go(prepares);
        let_go(commits);
        let_go(marks);
        let_go(views);
    }
}

impl Model for Order {
    ghost use Rattle.std.specs.Coded.{codes};
    ghost use Rattle.indexmap.specs.Layout.{hash_map_code};
    ghost use Rattle.global_order.specs.contracts.choices.Choices as choices_type;
    ghost use Rattle.global_order.specs.contracts.offers.Offers as offers_type;
    ghost use Rattle.global_order.specs.contracts.said.Said as told_type;
    ghost use Rattle.global_order.specs.OrderState.{OrderState};

    ghost Value = { OrderState };

    ghost coded = { Prim.hlevel (codes, hash_map_code, choices_type.the_row.coded, offers_type.the_row.coded, told_type.the_row.coded) };

    ghost use Rattle.global_order.specs.Held.{state_of, IsSound};

    ghost view = { state_of };

    ghost invariant = { IsSound };
}

impl Order {
    /// An order that was handed nothing and said nothing yet.
    pub fn new(alloc: Global, sizes: Sizes) -> Order
        ensures { (clients : ℕ) → IsOrderOf (group_of sizes clients) result [] [] }
    {
        Order {
            alloc,
            sizes,
            prepares: IndexMap::new(alloc),
            commits: IndexMap::new(alloc),
            marks: IndexMap::new(alloc),
            choices: Choices {
                rows: IndexMap::new(alloc),
                prepared: IndexMap::new(alloc),
                backed: IndexMap::new(alloc),
                pending: all_pending(0),
                ordered: IndexMap::new(alloc),
                committed: IndexMap::new(alloc),
                highest: 0,
            },
            views: IndexMap::new(alloc),
            offers: Offers {
                first_plan: Plan {
                    base: 0,
                    rows: Items::new(alloc),
                },
                plans: IndexMap::new(alloc),
                proposals: IndexMap::new(alloc),
                pending: all_pending(0),
            },
            told: Said {
                prepares: HashSet::new(alloc),
                commits: HashSet::new(alloc),
                marked: 0,
            },
            stable: 0,
            gapless: 0,
        }
    }

    /// Takes the rows that a preprepare offers as number `s` in view `v`.
    pub fn take_preprepare(&mut self, v: u64, s: u64, rows: &Rows) -> Result<(), Want>
        requires { IsTrue (rows_fit rows.now) }
        ensures taken { OnOk result (Learns self.old self.new (fact.Proposal v s rows.now ∷ [])) }
        ensures refused { OnErr result (Stays self.old self.new) }
    {
        let known = rows.copy()?;
        let offered = rows.copy()?;
        self.choices.rows.reserve(1)?;
        self.offers.proposals.reserve(1)?;
        learn(&mut self.choices, known);
        self.gapless = run_end(&self.choices.ordered, self.gapless);
        note_proposal(
            &mut self.offers.proposals,
            &mut self.offers.pending,
            v,
            s,
            offered,
        );
        Ok(())
    }

    /// Takes a master's prepare.
    pub fn take_prepare(&mut self, frame: &Signed<Prepare>) -> Result<(), Want>
        ensures taken { OnOk result (Learns self.old self.new (fact.Prepare frame.now ∷ [])) }
        ensures refused { OnErr result (Stays self.old self.new) }
    {
        let Prepare { v, s, digest } = frame.body;
        let vote = (v, s, digest, frame.signer);
        make_room(self.alloc, &mut self.choices.backed, digest)?;
        make_slot(&mut self.choices.prepared, v, s)?;
        let before = count_votes(&self.prepares, self.sizes.n, v, s, digest);
        note_vote(&mut self.prepares, vote, &frame.sig)?;
        let after = count_votes(&self.prepares, self.sizes.n, v, s, digest);
        let is_new = reaches_quorum(&self.sizes, before, after);
        note_if_prepared(&mut self.choices, is_new, v, s, digest);
        Ok(())
    }

    /// Takes a master's commit.
    pub fn take_commit(&mut self, frame: &Signed<Commit>) -> Result<(), Want>
        ensures taken { OnOk result (Learns self.old self.new (fact.Commit frame.now ∷ [])) }
        ensures refused { OnErr result (Stays self.old self.new) }
    {
        let Commit { v, s, digest } = frame.body;
        let vote = (v, s, digest, frame.signer);
        make_room(self.alloc, &mut self.choices.committed, digest)?;
        make_order(&mut self.choices.ordered, s)?;
        self.views.reserve(1)?;
        let before = count_votes(&self.commits, self.sizes.n, v, s, digest);
        note_vote(&mut self.commits, vote, &frame.sig)?;
        let after = count_votes(&self.commits, self.sizes.n, v, s, digest);
        let is_new = reaches_quorum(&self.sizes, before, after);
        note_if_committed(&mut self.choices, is_new, v, s, digest);
        note_view(&mut self.views, after >= self.sizes.q, v, s, digest);
        self.gapless = run_end(&self.choices.ordered, self.gapless);
        Ok(())
    }

    /// Takes a master's mark. One of a number that there isn't is passed over.
    pub fn take_mark(&mut self, frame: &Signed<Mark>) -> Result<(), Want>
        ensures taken { OnOk result (frame.now.body.s ≤ most_number → Learns self.old self.new (fact.Mark frame.now ∷ [])) }
        ensures passed { OnOk result (most_number < frame.now.body.s → self.new ≡ self.old) }
        ensures refused { OnErr result (Stays self.old self.new) }
    {
        let s = frame.body.s;
        if s > MOST_NUMBER {
            return Ok(());
        }
        note_mark(&mut self.marks, (s, frame.signer), &frame.sig)?;
        let count = count_marks(&self.marks, self.sizes.n, s);
        self.stable = raised(self.stable, s, count >= self.sizes.q);
        Ok(())
    }

    /// Takes rows that a certificate or a given order holds.
    pub fn take_rows(&mut self, rows: &Rows) -> Result<(), Want>
        requires { IsTrue (rows_fit rows.now) }
        ensures taken { OnOk result (Learns self.old self.new (fact.Rows rows.now ∷ [])) }
        ensures refused { OnErr result (Stays self.old self.new) }
    {
        let known = rows.copy()?;
        self.choices.rows.reserve(1)?;
        learn(&mut self.choices, known);
        self.gapless = run_end(&self.choices.ordered, self.gapless);
        Ok(())
    }

    /// Takes the plan of a new view `v`. The first of a view stands.
    pub fn offer_plan(&mut self, v: u64, plan: &Plan) -> Result<(), Want>
        requires { IsTrue (list_all rows_fit plan.now.rows) }
        ensures taken { OnOk result (Learns self.old self.new (fact.Plan v plan.now ∷ [])) }
        ensures refused { OnErr result (Stays self.old self.new) }
    {
        let known = plan.rows.copy()?;
        let offered = plan.copy()?;
        self.choices.rows.reserve(known.len())?;
        self.offers.plans.reserve(1)?;
        learn_all(&mut self.choices, known.into_vec());
        self.gapless = run_end(&self.choices.ordered, self.gapless);
        note_plan(&mut self.offers.plans, &mut self.offers.pending, v, offered);
        Ok(())
    }

    /// The prepares, commits and marks due in a view, which count as said from then on.
    pub fn due(&mut self, view: u64, is_open: bool) -> Result<Vec<Body>, Want>
        ensures due { IfOk result (λ bodies. Where self.old (λ g facts said. bodies.items ≡ bodies_due g facts said view is_open)) }
        ensures said { IfOk result (λ bodies. Says self.old self.new bodies.items) }
        ensures refused { OnErr result (Stays self.old self.new) }
    {
        let last = last_open(self.window_end(), is_open);
        let bodies = self.due_up_to(view, last)?;
        Ok(bodies)
    }

    /// What is due in a view where it is open as far as number `last`: the prepares for the numbers up to this one, all
    /// commits and all marks. They count as said from then on, and what isn't said stays due.
    pub fn due_up_to(&mut self, view: u64, last: u64) -> Result<Vec<Body>, Want>
        ensures due { IfOk result (λ bodies. Where self.old (λ g facts said. bodies.items ≡ bodies_up_to g facts said view last)) }
        ensures said { IfOk result (λ bodies. Says self.old self.new bodies.items) }
        ensures refused { OnErr result (Stays self.old self.new) }
    {
        let mut bodies = Vec::new(self.alloc);
        let end = self.stable + WINDOW + 1;
        let prepares_end = last.min(self.stable + WINDOW) + 1;
        let prepares = pending_in(&self.offers.pending, view);
        push_pending_prepares(
            &mut bodies,
            &self.offers,
            &self.told.prepares,
            &prepares,
            prepares_end,
        )?;
        let commits = pending_in(&self.choices.pending, view);
        push_pending_commits(
            &mut bodies,
            &self.choices.prepared,
            &self.told.commits,
            &commits,
            end,
        )?;
        push_marks(&mut bodies, self.told.marked, self.gapless)?;
        self.told.prepares.reserve(bodies.len())?;
        self.told.commits.reserve(bodies.len())?;
        note_said(&mut self.told.prepares, &mut self.told.commits, &bodies);
        self.told.marked = self.gapless;
        self.offers.pending = pending_from(&prepares, prepares_end);
        self.choices.pending = pending_from(&commits, end);
        Ok(bodies)
    }

    /// Up to which number no prepare is due in a view, as far as that is known without a look at what the view offers.
    pub fn no_prepare_up_to(&self, view: u64) -> u64
        ensures { Where self.now (λ g facts said. (s : ℕ) → 1 ≤ s → s ≤ result → rules.prepare_due facts said view s ≡ []) }
    {
        first_pending(&pending_in(&self.offers.pending, view)).saturating_sub(1)
    }

    /// The rows that are ordered as number `s`. None exactly where none are.
    pub fn ordered(&self, s: u64) -> Option<&Rows>
        ensures { Where self.now (λ g facts said. option_copied result ≡ rules.ordered g facts s) }
    {
        let digest = order_of(&self.choices.ordered, s)?;
        self.choices.rows.get(&digest)
    }

    /// Up to which number all are ordered.
    pub fn gapless(&self) -> u64
        ensures { Where self.now (λ g facts said. result ≡ rules.gapless g facts) }
    {
        self.gapless
    }

    /// The least number that isn't ordered, where a greater one is.
    pub fn gap(&self) -> Option<u64>
        ensures { Where self.now (λ g facts said. result ≡ gap_of g facts) }
    {
        let least = self.gapless + 1;
        if least < self.choices.highest {
            Some(least)
        } else {
            None
        }
    }

    /// The whole order of number `s`, for a master that asks for it: its rows and the commits of the `q` lowest masters in
    /// the greatest view in which a quorum committed them. None exactly where it isn't ordered.
    pub fn given(&self, s: u64) -> Result<Option<GiveOrdered>, Want>
        ensures { IfOk result (λ gift. Where self.now (λ g facts said. gift ≡ given_order g facts s)) }
    {
        let Some(digest) = order_of(&self.choices.ordered, s) else {
            return Ok(None);
        };
        let Some(rows) = self.choices.rows.get(&digest) else {
            return Ok(None);
        };
        let rows = rows.copy()?;
        let v = view_of(&self.views, s, digest);
        let commit = Commit { v, s, digest };
        let commits = votes_of(self.alloc, &self.commits, &self.sizes, v, s, digest, commit)?;
        Ok(Some(GiveOrdered {
            s,
            v,
            rows,
            commits,
        }))
    }

    /// The greatest number that a quorum marked, 0 where there is none.
    pub fn stable(&self) -> u64
        ensures { Where self.now (λ g facts said. result ≡ rules.stable g facts) }
    {
        self.stable
    }

    /// The last number that the window allows.
    pub fn window_end(&self) -> u64
        ensures { Where self.now (λ g facts said. result ≡ rules.stable g facts + window) }
    {
        self.stable + WINDOW
    }

    /// The marks that show the stable number: the first ones of the `q` lowest masters. None for 0.
    pub fn marks(&self) -> Result<Vec<Signed<Mark>>, Want>
        ensures { IfOk result (λ marks. Where self.now (λ g facts said. marks.items ≡ rules.marks_for g facts (rules.stable g facts))) }
    {
        if self.stable == 0 {
            return Ok(Vec::new(self.alloc));
        }
        marks_of(self.alloc, &self.marks, &self.sizes, self.stable)
    }

    /// The certificate of view `v` for number `s` that was complete first, with the first prepares of the `q` lowest
    /// masters. None exactly where no known rows have a quorum of prepares there.
    pub fn certificate(&self, v: u64, s: u64) -> Result<Option<Certificate>, Want>
        ensures { IfOk result (λ certificate. Where self.now (λ g facts said. certificate ≡ rules.certificate_at g facts s v)) }
    {
        first_certificate_of(self.alloc, &self.choices, &self.prepares, &self.sizes, v, s)
    }

    /// What a report of view `below` brings: for each of the 16 numbers after the stable one that has a known
    /// certificate of a view below this, that of the highest one. The certificate holds the first prepares of the
    /// `q` lowest masters; of several of one view it is that of the least digest.
    pub fn certificates(&self, below: u64) -> Result<Vec<Certificate>, Want>
        ensures { IfOk result (λ certificates. Where self.now (λ g facts said. certificates.items ≡ rules.certificates_below g facts below)) }
    {
        let mut certificates = Vec::new(self.alloc);
        for s in self.stable + 1..self.stable + WINDOW + 1 {
            let certificate = last_certificate_of(
                self.alloc,
                &self.choices,
                &self.prepares,
                &self.sizes,
                below,
                s,
            )?;
            extend_option(&mut certificates, certificate)?;
        }
        Ok(certificates)
    }

    /// The plan of view `v`. None exactly where none is known; view 0 has an empty one.
    pub fn plan(&self, v: u64) -> Option<&Plan>
        ensures { Where self.now (λ g facts said. option_copied result ≡ rules.plan_known facts v) }
    {
        plan_of_view(&self.offers, v)
    }

    /// The rows that view `v` offers as number `s`, once it is open.
    pub fn offered(&self, v: u64, s: u64) -> Option<&Rows>
        ensures { Where self.now (λ g facts said. option_copied result ≡ rules.offered facts v s) }
    {
        offered_in(&self.offers, v, s)
    }
}

/// Whether there is a quorum that wasn't there before.
fn reaches_quorum(sizes: &Sizes, before: u32, after: u32) -> bool
    ensures { result ≡ (nat_le sizes.now.q after && not (nat_le sizes.now.q before)) }
{
    before < sizes.q && after >= sizes.q
}

/// As far as which number a view is open, where the window ends there.
fn last_open(end: u64, is_open: bool) -> u64
    ensures { result ≡ (if is_open then end else 0) }
{
    if is_open { end } else { 0 }
}

/// The stable number once this number is marked by a quorum, or not.
fn raised(stable: u64, s: u64, is_marked: bool) -> u64
    ensures { result ≡ (if is_marked then max stable s else stable) }
{
    if is_marked { stable.max(s) } else { stable }
}
