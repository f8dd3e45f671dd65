ghost use Rattle.std.specs.Prelude.{◌≡◌, ◌+◌, ◌-◌, ◌*◌, ◌<◌, ◌≤◌, ◌^◌, ℕ, Bool, true, false, List, [], ◌++◌, Option, IsOk, OnOk, OnErr, IfOk, option_map, nat_eq, nat_lt, not, if◌then◌else◌};
ghost use Rattle.std.specs.List.{filter_map, list_all};
ghost use Rattle.std.specs.Option.{option_to_list};
ghost use Rattle.message_types.specs.declared.body.Body.TheVariants as body;
ghost use Rattle.protocol_rules.specs.Group.{group_of, most_view};
ghost use Rattle.protocol_rules.specs.Measures.{turnaround, acceptable, pings_due};
ghost use Rattle.suspect_leader.specs.Sayings.{is_among, ticks_of_round_trip};
ghost use Rattle.suspect_leader.specs.MeasureState.{IsMeasureOf, Learns, Says, IsTold, Where, waited_in, answer_to, measures_due, figure_at, later_of, ticks_in, turnaround_kept, acceptable_kept, bound_kept, report_due_kept, bound_due_kept, vote_due_kept, due_kept, is_word_in_place};

use crate::answers::{count, owe, release, settle};
use crate::heard::{Heard, heard_of};
use crate::ranked::Ranked;
use crate::saying::Saying;
use crate::tables::{Table, all_told, keep_first, keep_greatest};
use message_types::{Body, Ping, Pong, Rtt, Suspect, TatBound, TatReport};
use plain_lists::{Want, extend_option};
use protocol_rules::{MOST_TICKS, MOST_VIEW};
use quorum_sets::{MASTER_PLACES, Sizes};
use std::alloc::Global;
use std::collections::{BTreeMap, BTreeSet};
use std::marker::Model;

/// Every so many ticks a ping is said.
const PING_STEP: u64 = 16;

/// A master tells at every so many ticks of waiting how long it has waited.
const REPORT_STEP: u64 = 8;

/// What a leader may take where a master has told no bound, in ticks.
const FIRST_BOUND: u64 = 16;

/// How long the leaders keep a master waiting, and how long they may.
pub struct Measure {
    alloc: Global,
    sizes: Sizes,
    me: u32,
    ticks: u64,
    view: u64,
    waited: u64,
    reports: Table,
    bounds: Table,
    trips: [Option<Rtt>; MASTER_PLACES],
    /// Round trips owed whose pings weren't said yet: no event looks at them.
    early: BTreeSet<Saying, Global>,
    /// The other answers owed, and after want of memory perhaps a round trip whose ping isn't said yet.
    pending: BTreeSet<Saying, Global>,
    said: BTreeSet<Saying, Global>,
}

// Taken apart here once, so that no crate above proves it again.
impl Drop for Measure {
    fn drop(self) {
        let Measure {
            alloc: _,
            sizes: _,
            me: _,
            ticks: _,
            view: _,
            waited: _,
            reports: _,
            bounds: _,
            trips: _,
            early: _,
            pending: _,
            said: _,
        } = self;
    }
}

impl Model for Measure {
    ghost use Rattle.std.specs.Prelude.{◌≡◌, ◌≤◌, ℕ, None, true};
    ghost use Rattle.std.specs.List.{slice_index_or};
    ghost use Rattle.protocol_rules.specs.Group.{group_of};
    ghost use Rattle.protocol_rules.specs.declared.limits.TheConstants.{MOST_TICKS};
    ghost use Rattle.suspect_leader.specs.declared.saying.Saying.{Saying as Say};
    ghost use Rattle.suspect_leader.specs.Sayings.{is_among};
    ghost use Rattle.suspect_leader.specs.MeasureState.{MeasureState, ticks_in, with_all, is_early};

    ghost Value = { MeasureState };

    ghost view = { λ m. record { group = group_of m.sizes 0; me = m.me; ticks = m.ticks; view = m.view; waited = m.waited; reports = m.reports.entries; bounds = m.bounds.entries; trips = m.trips; pending = with_all m.pending.keys m.early.keys; said = m.said.keys } };

    ghost invariant = { λ m. (m.ticks ≤ MOST_TICKS) × (m.waited ≤ m.ticks) × ((j : ℕ) → ticks_in (slice_index_or m.trips j None) ≤ MOST_TICKS) × ((s : Say) → is_among m.early.keys s ≡ true → is_early m.sizes.n m.said.keys s ≡ true) };
}

impl Measure {
    /// The measures of master `me` where it was told of no event, knows no word and said nothing.
    pub fn new(alloc: Global, sizes: Sizes, me: u32) -> Measure
        ensures ticks { result.ticks ≡ 0 }
        ensures nothing { (clients : ℕ) → IsMeasureOf (group_of sizes clients) me result [] [] [] }
    {
        Measure {
            alloc,
            sizes,
            me,
            ticks: 0,
            view: 0,
            waited: 0,
            reports: BTreeMap::new(alloc),
            bounds: BTreeMap::new(alloc),
            trips: [None; MASTER_PLACES],
            early: BTreeSet::new(alloc),
            pending: BTreeSet::new(alloc),
            said: BTreeSet::new(alloc),
        }
    }

    /// How many ticks it was told of.
    pub fn ticks(&self) -> u64
        ensures { result ≡ self.now.ticks }
    {
        self.ticks
    }

    /// Is told of a tick: the view at it, and whether the master then waits for the leader. It takes no memory.
    pub fn tick(&mut self, view: u64, waits: bool) -> Result<(), Want>
        requires { self.old.ticks < 2 ^ 32 }
        ensures ok { IsOk result }
        ensures ticks { self.new.ticks ≡ self.old.ticks + 1 }
        ensures told { IsTold self.old self.new record { is_tick = true; view = view; waits = waits } }
    {
        let before = self.waited_in(view);
        self.ticks += 1;
        self.view = view;
        self.waited = if waits { before + 1 } else { 0 };
        Ok(())
    }

    /// Is told of an event that is no tick.
    pub fn still(&mut self, view: u64, waits: bool)
        ensures ticks { self.new.ticks ≡ self.old.ticks }
        ensures told { IsTold self.old self.new record { is_tick = false; view = view; waits = waits } }
    {
        let before = self.waited_in(view);
        self.view = view;
        self.waited = if waits { before } else { 0 };
    }

    /// Takes the next word known. Only pings, pongs, round trips, tatreports and tatbounds of masters change anything.
    /// A round trip in its place has at most 2^32 ticks.
    pub fn take(&mut self, signer: u32, body: &Body) -> Result<(), Want>
        requires { ticks_of_round_trip body.now ≤ MOST_TICKS }
        ensures ticks { self.new.ticks ≡ self.old.ticks }
        ensures ok { OnOk result ((sig : List ℕ) → Learns self.old self.new record { signer = signer; body = body.now; sig = sig }) }
        ensures err { OnErr result (self.new ≡ self.old) }
    {
        if signer >= self.sizes.n {
            return Ok(());
        }
        match heard_of(body) {
            Some(Heard::Ping(word)) => self.take_ping(signer, word),
            Some(Heard::Pong(word)) => self.take_pong(signer, word),
            Some(Heard::RoundTrip(word)) => {
                self.take_round_trip(signer, word);
                Ok(())
            }
            Some(Heard::Report(word)) => {
                keep_greatest(&mut self.reports, word.v, signer, word.ticks)
            }
            Some(Heard::Bound(word)) => keep_first(&mut self.bounds, word.v, signer, word.ticks),
            None => Ok(()),
        }
    }

    /// How long the leader of view `v` takes, in ticks: the `f + 1`st lowest of the masters' greatest reports.
    pub fn leader_turnaround(&self, v: u64) -> u64
        ensures { Where self.now (λ g me told known said. result ≡ turnaround g known v) }
    {
        self.turnaround_told(v)
    }

    /// How long it may take, in ticks: the `f + 1`st highest of the masters' first bounds.
    pub fn acceptable(&self, v: u64) -> u64
        ensures { Where self.now (λ g me told known said. result ≡ acceptable g known v) }
    {
        self.acceptable_told(v)
    }

    /// What to say at an event, in view `view`, once the event was told and its words were taken: a ping, the pongs
    /// and the round trips owed, how long the leader has kept the master waiting, its own bound, and a vote. They
    /// count as said. A pong that came before its ping was said stays owed, and is looked at only once the ping was said.
    pub fn due(&mut self, view: u64, at_tick: bool) -> Result<Vec<Body>, Want>
        ensures ticks { self.new.ticks ≡ self.old.ticks }
        ensures bodies { IfOk result (λ bodies. Where self.old (λ g me told known said.
            bodies.items ≡ measures_due g me told known said view at_tick)) }
        ensures counted { IfOk result (λ bodies. Says self.old self.new bodies.items) }
        ensures places { IfOk result (λ bodies. Where self.old (λ g me told known said.
            me < g.n → view ≤ most_view → list_all (is_word_in_place g me) bodies.items ≡ true)) }
        ensures err { OnErr result (self.new ≡ self.old) }
    {
        let mut bodies = Vec::with_capacity(self.alloc, self.pending.len())?;
        self.list(&mut bodies, view, at_tick)?;
        let masters = self.sizes.n;
        release(
            &mut self.pending,
            &mut self.early,
            masters,
            bodies.as_slice(),
        )?;
        count(&mut self.said, bodies.as_slice())?;
        settle(&mut self.pending, bodies.as_slice());
        Ok(bodies)
    }

    fn list(&self, bodies: &mut Vec<Body, Global>, view: u64, at_tick: bool) -> Result<(), Want>
        ensures { OnOk result (bodies.new.items ≡ bodies.old.items ++ due_kept self.now view at_tick) }
    {
        extend_option(bodies, self.ping_due(at_tick))?;
        self.push_answers(bodies)?;
        extend_option(bodies, self.report_due(view, at_tick))?;
        extend_option(bodies, self.bound_due(view, at_tick))?;
        extend_option(bodies, self.vote_due(view, at_tick))
    }

    fn turnaround_told(&self, v: u64) -> u64
        ensures { result ≡ turnaround_kept self.now v }
    {
        let reports = all_told(&self.reports, v, self.sizes.n, 0);
        reports.lowest(self.sizes.f as usize)
    }

    fn acceptable_told(&self, v: u64) -> u64
        ensures { result ≡ acceptable_kept self.now v }
    {
        let bounds = all_told(&self.bounds, v, self.sizes.n, FIRST_BOUND);
        bounds.highest(self.sizes.f as usize)
    }

    fn waited_in(&self, view: u64) -> u64
        ensures value { result ≡ waited_in self.now view }
        ensures few { result ≤ self.now.ticks }
    {
        if view == self.view { self.waited } else { 0 }
    }

    fn take_ping(&mut self, signer: u32, word: Ping) -> Result<(), Want>
        requires { signer < self.old.group.n }
        ensures ticks { self.new.ticks ≡ self.old.ticks }
        ensures ok { OnOk result ((sig : List ℕ) → Learns self.old self.new record { signer = signer; body = body.Ping word; sig = sig }) }
        ensures err { OnErr result (self.new ≡ self.old) }
    {
        if signer == self.me {
            return Ok(());
        }
        let pong = Saying::Pong {
            to: signer,
            number: word.number,
        };
        owe(&mut self.pending, &self.said, pong)
    }

    fn take_pong(&mut self, signer: u32, word: Pong) -> Result<(), Want>
        requires { signer < self.old.group.n }
        ensures ticks { self.new.ticks ≡ self.old.ticks }
        ensures ok { OnOk result ((sig : List ℕ) → Learns self.old self.new record { signer = signer; body = body.Pong word; sig = sig }) }
        ensures err { OnErr result (self.new ≡ self.old) }
    {
        if word.to != self.me {
            return Ok(());
        }
        let trip = Saying::RoundTrip {
            to: signer,
            number: word.number,
        };
        let is_answerable = self.has_said(Saying::Ping {
            number: word.number,
        });
        if is_answerable {
            owe(&mut self.pending, &self.said, trip)
        } else {
            owe(&mut self.early, &self.said, trip)
        }
    }

    fn take_round_trip(&mut self, signer: u32, word: Rtt)
        requires signer { signer < self.old.group.n }
        requires ticks { word.ticks ≤ MOST_TICKS }
        ensures ticks { self.new.ticks ≡ self.old.ticks }
        ensures known { (sig : List ℕ) → Learns self.old self.new record { signer = signer; body = body.Rtt word; sig = sig } }
    {
        if word.to != self.me {
            return;
        }
        let place = signer as usize;
        self.trips[place] = Some(later(self.trips[place], word));
    }

    fn ping_due(&self, at_tick: bool) -> Option<Body>
        ensures { option_to_list result ≡ pings_due self.now.ticks at_tick }
    {
        if at_tick && self.ticks % PING_STEP == 0 {
            Some(Body::Ping(Ping {
                number: self.ticks / PING_STEP,
            }))
        } else {
            None
        }
    }

    fn push_answers(&self, bodies: &mut Vec<Body, Global>) -> Result<(), Want>
        ensures { OnOk result (bodies.new.items ≡ bodies.old.items ++ filter_map (answer_to self.now.ticks self.now.said) self.now.pending) }
    {
        for saying in &self.pending {
            extend_option(bodies, self.answer(saying))?;
        }
        Ok(())
    }

    fn answer(&self, saying: &Saying) -> Option<Body>
        ensures { result ≡ answer_to self.now.ticks self.now.said saying.now }
    {
        match *saying {
            Saying::Pong { to, number } => Some(Body::Pong(Pong { to, number })),
            Saying::RoundTrip { to, number } if self.has_said(Saying::Ping { number }) => {
                Some(Body::Rtt(Rtt {
                    to,
                    number,
                    ticks: ticks_since(self.ticks, number),
                }))
            }
            _ => None,
        }
    }

    fn has_said(&self, saying: Saying) -> bool
        ensures { result ≡ is_among self.now.said saying }
    {
        self.said.contains(&saying)
    }

    fn report_due(&self, view: u64, at_tick: bool) -> Option<Body>
        ensures { option_to_list result ≡ report_due_kept self.now view at_tick }
    {
        let ticks = self.waited_in(view);
        let is_new = !self.has_said(Saying::Report { v: view, ticks });
        if at_tick && 0 < ticks && ticks % REPORT_STEP == 0 && is_new {
            Some(Body::TatReport(TatReport { v: view, ticks }))
        } else {
            None
        }
    }

    fn bound_due(&self, view: u64, at_tick: bool) -> Option<Body>
        ensures { option_to_list result ≡ bound_due_kept self.now view at_tick }
    {
        let is_new = !self.has_said(Saying::Bound { v: view });
        let ticks = self.own_bound()?;
        if at_tick && is_new {
            Some(Body::TatBound(TatBound { v: view, ticks }))
        } else {
            None
        }
    }

    fn vote_due(&self, view: u64, at_tick: bool) -> Option<Body>
        ensures { option_to_list result ≡ vote_due_kept self.now view at_tick }
    {
        let is_slow = self.acceptable_told(view) < self.turnaround_told(view);
        let is_new = !self.has_said(Saying::Vote { v: view });
        if at_tick && view < MOST_VIEW && is_slow && is_new {
            Some(Body::Suspect(Suspect { v: view }))
        } else {
            None
        }
    }

    /// The master's own bound, once `q - 1` others have told it a round trip.
    fn own_bound(&self) -> Option<u64>
        ensures { result ≡ bound_kept self.now }
    {
        let mut figures = Ranked::new();
        for master in 0..self.sizes.n {
            figures.put_if(self.figure(master));
        }
        if figures.len() + 1 < self.sizes.q as usize {
            return None;
        }
        Some(figures.highest(self.sizes.f as usize))
    }

    /// What the latest round trip of another master makes of it.
    fn figure(&self, master: u32) -> Option<u64>
        requires { master < self.now.group.n }
        ensures { result ≡ figure_at self.now master }
    {
        if master == self.me {
            return None;
        }
        let trip = self.trips[master as usize]?;
        Some(2 * trip.ticks + 4)
    }
}

/// The later of two round trips.
fn later(held: Option<Rtt>, word: Rtt) -> Rtt
    ensures value { result ≡ later_of held word }
    ensures one { (most : ℕ) → ticks_in held ≤ most → word.ticks ≤ most → result.ticks ≤ most }
{
    match held {
        Some(best) if best.number >= word.number => best,
        _ => word,
    }
}

/// The ticks since the ping of this number was said.
fn ticks_since(ticks: u64, number: u64) -> u64
    ensures { result ≡ ticks - 16 * number }
{
    ticks.saturating_sub(number.saturating_mul(PING_STEP))
}
