ghost use Rattle.std.specs.Prelude.{◌≡◌, ◌++◌, ◌∷◌, ℕ, ◌&&◌, List, [], Option, Some, None, IsTrue, OnOk, OnErr, IfOk, IfSome, ◌||◌, false, option_map};
ghost use Rattle.std.specs.List.{list_any};
ghost use Rattle.message_types.specs.declared.body.Body.{Body};
ghost use Rattle.protocol_rules.specs.Group.{Group};
ghost use Rattle.protocol_rules.specs.Reconcile.{ask_update_due, ask_order_due};
ghost use Rattle.reconcile.specs.Asking.{asks, gives, is_among, is_place};
ghost use Rattle.reconcile.specs.Again.{asks_again_due};
ghost use Rattle.reconcile.specs.AskState.{AreAsksOf, Learns, Says, Where, IsListOfWanted, request_at, new_ask, asks_for, is_one, with_one};

use crate::again::{asking_each, count_each, due_among};
use crate::wanted::{Wanted, asked_in, asking};
use message_types::Body;
use plain_lists::Want;
use protocol_rules::MOST_NUMBER;
use quorum_sets::Sizes;
use std::alloc::Global;
use std::collections::BTreeSet;
use std::marker::Model;

/// What a master asked of others, and what others want of it.
pub struct Asks {
    alloc: Global,
    sizes: Sizes,
    me: u32,
    wanted: BTreeSet<Wanted, Global>,
    given: BTreeSet<Wanted, Global>,
    asked: BTreeSet<Wanted, Global>,
}

// Taken apart here once, so that no crate above proves it again.
impl Drop for Asks {
    fn drop(self) {
        let Asks {
            alloc: _,
            sizes: _,
            me: _,
            wanted: _,
            given: _,
            asked: _,
        } = self;
    }
}

impl Model for Asks {
    ghost use Rattle.reconcile.specs.Again.{asks_again_due};
    ghost use Rattle.reconcile.specs.AskState.{AskState};

    ghost Value = { AskState };

    ghost view = { λ a. record { masters = a.sizes.n; me = a.me; wanted = a.wanted.keys; given = a.given.keys; asked = a.asked.keys } };
}

impl Asks {
    /// The asks of master `me` where no word is known and none was said.
    pub fn new(alloc: Global, sizes: Sizes, me: u32) -> Asks
        ensures { (g : Group) → sizes.n ≡ g.n → AreAsksOf g me result [] [] }
    {
        Asks {
            alloc,
            sizes,
            me,
            wanted: BTreeSet::new(alloc),
            given: BTreeSet::new(alloc),
            asked: BTreeSet::new(alloc),
        }
    }

    /// Takes the next word known. Only what another master asks for changes anything.
    pub fn take(&mut self, signer: u32, body: &Body) -> Result<(), Want>
        ensures ok { OnOk result ((sig : List ℕ) → Learns self.old self.new record { signer = signer; body = body.now; sig = sig }) }
        ensures err { OnErr result (self.new ≡ self.old) }
    {
        if signer == self.me {
            return Ok(());
        }
        let Some(wanted) = asked_in(body) else {
            return Ok(());
        };
        if !self.has_place(&wanted) || self.given.contains(&wanted) {
            return Ok(());
        }
        self.wanted.insert(wanted)?;
        Ok(())
    }

    /// What to ask for: the request whose certificate the order waits for and the first number that is
    /// missing, each at a tick and once. They count as said.
    pub fn due(
        &mut self,
        at_tick: bool,
        waiting: Option<(u32, u64)>,
        gap: Option<u64>,
    ) -> Result<Vec<Body>, Want>
        ensures bodies { IfOk result (λ bodies. Where self.old (λ g me known said.
            bodies.items ≡ ask_update_due said at_tick (request_at waiting) ++ ask_order_due said at_tick gap)) }
        ensures counted { IfOk result (λ bodies. Says self.old self.new bodies.items) }
        ensures err { OnErr result (self.new ≡ self.old) }
    {
        let request = self.not_asked(at_tick, wanted_request(waiting));
        let number = self.not_asked(at_tick, wanted_number(gap));
        let mut bodies = Vec::new(self.alloc);
        push_ask(&mut bodies, request)?;
        push_ask(&mut bodies, number)?;
        count_both(&mut self.asked, request, number)?;
        Ok(bodies)
    }

    /// What to ask for of what is lacking, in its order and at most so much of it: what wasn't asked for yet, and at each
    /// 16th tick all. It counts as said.
    pub fn due_again(
        &mut self,
        now: u64,
        lacking: &[Wanted],
        most: usize,
    ) -> Result<Vec<Body>, Want>
        ensures bodies { IfOk result (λ bodies. Where self.old (λ g me known said.
            bodies.items ≡ asks_again_due said now lacking.now most)) }
        ensures counted { IfOk result (λ bodies. Says self.old self.new bodies.items) }
        ensures err { OnErr result (self.new ≡ self.old) }
    {
        let due = due_among(self.alloc, &self.asked, now, lacking, most)?;
        let bodies = asking_each(self.alloc, due.as_slice())?;
        count_each(&mut self.asked, due.as_slice())?;
        Ok(bodies)
    }

    /// Whether the master asked for it.
    pub fn has_asked(&self, wanted: &Wanted) -> bool
        ensures { Where self.now (λ g me known said. result ≡ list_any (asks wanted.now) said) }
    {
        self.asked.contains(wanted)
    }

    /// All that others asked for and this master hasn't given: requests by master and then by their numbers,
    /// then global numbers, rising.
    pub fn wanted(&self) -> Result<Vec<Wanted>, Want>
        ensures { IfOk result (λ list. Where self.now (λ g me known said. IsListOfWanted g me known said list.items)) }
    {
        let mut list = Vec::with_capacity(self.alloc, self.wanted.len())?;
        for wanted in &self.wanted {
            list.push(*wanted)?;
        }
        Ok(list)
    }

    /// Is told that the master said a body that gives it.
    pub fn given(&mut self, wanted: &Wanted) -> Result<(), Want>
        ensures ok { OnOk result ((body : Body) → IsTrue (gives wanted.now body) → Says self.old self.new (body ∷ [])) }
        ensures err { OnErr result (self.new ≡ self.old) }
    {
        self.given.insert(*wanted)?;
        self.wanted.remove(wanted);
        Ok(())
    }

    fn has_place(&self, wanted: &Wanted) -> bool
        ensures { (g : Group) → self.now.masters ≡ g.n → result ≡ is_place g wanted.now }
    {
        match *wanted {
            Wanted::Request { j, k } => j < self.sizes.n && 1 <= k && k <= MOST_NUMBER,
            Wanted::Number { s } => 1 <= s && s <= MOST_NUMBER,
        }
    }

    fn not_asked(&self, at_tick: bool, wanted: Option<Wanted>) -> Option<Wanted>
        ensures { result ≡ new_ask at_tick self.now.asked wanted }
    {
        match wanted {
            Some(wanted) if at_tick && !self.asked.contains(&wanted) => Some(wanted),
            _ => None,
        }
    }
}

fn wanted_request(waiting: Option<(u32, u64)>) -> Option<Wanted>
    ensures { result ≡ option_map (λ at. Wanted.Request at.0 at.1) waiting }
{
    match waiting {
        Some((j, k)) => Some(Wanted::Request { j, k }),
        None => None,
    }
}

fn wanted_number(gap: Option<u64>) -> Option<Wanted>
    ensures { result ≡ option_map (λ s. Wanted.Number s) gap }
{
    match gap {
        Some(s) => Some(Wanted::Number { s }),
        None => None,
    }
}

fn push_ask(bodies: &mut Vec<Body, Global>, wanted: Option<Wanted>) -> Result<(), Want>
    ensures { OnOk result (bodies.new.items ≡ bodies.old.items ++ asks_for wanted) }
{
    if let Some(wanted) = wanted {
        bodies.push(asking(wanted))?;
    }
    Ok(())
}

/// Puts both in, or none where there is no memory.
fn count_both(
    asked: &mut BTreeSet<Wanted, Global>,
    first: Option<Wanted>,
    second: Option<Wanted>,
) -> Result<(), Want>
    requires { IfSome first (λ w. is_among asked.old.keys w ≡ false) }
    ensures ok { OnOk result ((w : Wanted) → is_among asked.new.keys w ≡ (is_one first w || is_one second w || is_among asked.old.keys w)) }
    ensures err { OnErr result (asked.new.keys ≡ asked.old.keys) }
{
    count(asked, first)?;
    match count(asked, second) {
        Ok(()) => Ok(()),
        Err(want) => {
            uncount(asked, first);
            Err(want)
        }
    }
}

fn count(asked: &mut BTreeSet<Wanted, Global>, wanted: Option<Wanted>) -> Result<(), Want>
    ensures ok { OnOk result ((w : Wanted) → is_among asked.new.keys w ≡ (is_one wanted w || is_among asked.old.keys w)) }
    ensures place { OnOk result (asked.new.keys ≡ with_one wanted asked.old.keys) }
    ensures err { OnErr result (asked.new.keys ≡ asked.old.keys) }
{
    if let Some(wanted) = wanted {
        asked.insert(wanted)?;
    }
    Ok(())
}

fn uncount(asked: &mut BTreeSet<Wanted, Global>, wanted: Option<Wanted>)
    ensures { (keys : List Wanted) → asked.old.keys ≡ with_one wanted keys → IfSome wanted (λ w. is_among keys w ≡ false) → asked.new.keys ≡ keys }
{
    if let Some(wanted) = wanted {
        asked.remove(&wanted);
    }
}
