ghost use Rattle.std.specs.Prelude.{◌≡◌, ◌<◌, ◌≤◌, ◌+◌, ◌^◌, ℕ, Bool, ◌&&◌, true, false, [], List, None, Some, OnOk, OnErr, IfOk, IsTrue, IsSome, length, cond, nat_eq, nat_lt, unwrap_or, if◌then◌else◌, slice_get};
ghost use Rattle.std.specs.BTreeMap.{get};
ghost use Rattle.std.specs.Ordering.{nat_cmp, is_eq};
ghost use Rattle.std.specs.Cmp.Lexicographic.{slice_cmp};
ghost use Rattle.message_types.specs.declared.vouchers.Order.{Order};
ghost use Rattle.vouched_orders.specs.Vouching.{or_else};
ghost use Rattle.vouched_orders.specs.Tally.{ballot, masters_at, order_with, with_signer, IsTallyOf, MakesDone, TakesVote, TalliesAlike};

use crate::ballots::ballot_of;
use crate::vote::Vote;
use message_types::{Order, Voucher};
use plain_lists::Want;
use quorum_sets::{Sizes, VoterSet};
use std::alloc::Global;
use std::collections::BTreeMap;
use std::marker::Model;

/// A tally of the votes taken for a client's orders, by number and order. Contracts see which votes it is the tally of.
pub struct Vouched {
    alloc: Global,
    sizes: Sizes,
    masters: BTreeMap<[u64; 5], VoterSet, Global>,
    settled: BTreeMap<u64, Order, Global>,
    count: u64,
}

// Taken apart here once, so that no crate above proves it again.
impl Drop for Vouched {
    fn drop(self) {
        let Vouched {
            alloc: _,
            sizes: _,
            masters: _,
            settled: _,
            count: _,
        } = self;
    }
}

impl Model for Vouched {
    ghost use Rattle.vouched_orders.specs.Tally.{Tally};

    ghost Value = { Tally };

    ghost view = { λ v. record { n = v.sizes.n; f = v.sizes.f; masters = v.masters.entries; settled = v.settled.entries; count = v.count } };
}

impl Vouched {
    /// No votes yet. It takes no memory.
    pub fn new(alloc: Global, sizes: &Sizes) -> Vouched
        ensures { IsTallyOf sizes.now.n sizes.now.f [] result }
    {
        Vouched {
            alloc,
            sizes: *sizes,
            masters: BTreeMap::new(alloc),
            settled: BTreeMap::new(alloc),
            count: 0,
        }
    }

    /// The orders that this vote would make done, in the order of their numbers.
    pub fn ready(&self, vote: &Vote) -> Result<Vec<Order, Global>, Want>
        ensures { IfOk result (λ orders. MakesDone self.now vote.now orders.items) }
    {
        let masters = masters_with(&self.masters, &self.sizes, vote);
        let settles = masters.len() > self.sizes.f;
        let is_done = follows(self.count, vote.voucher.number) & settles;
        if !is_done {
            return Ok(Vec::new(self.alloc));
        }
        let orders = run_with(self.alloc, &self.settled, &vote.voucher)?;
        Ok(orders)
    }

    /// Takes a vote, whoever signed it. After want of memory it isn't taken.
    pub fn take(&mut self, vote: Vote) -> Result<(), Want>
        ensures ok { OnOk result (TakesVote self.old vote self.new) }
        ensures err { OnErr result (TalliesAlike self.old self.new) }
    {
        let masters = masters_with(&self.masters, &self.sizes, &vote);
        let settles = masters.len() > self.sizes.f;
        note(
            &mut self.masters,
            &mut self.settled,
            &vote.voucher,
            masters,
            settles,
        )?;
        self.count = end_of_run(&self.settled, self.count);
        Ok(())
    }
}

/// Whether a number comes next after so many.
fn follows(count: u64, number: u64) -> bool
    ensures { result ≡ nat_eq number (1 + count) }
{
    count < number && number - count == 1
}

/// The supporters of a vote's order, its own signer among them where it is a master.
fn masters_with(
    tally: &BTreeMap<[u64; 5], VoterSet, Global>,
    sizes: &Sizes,
    vote: &Vote,
) -> VoterSet
    ensures { result ≡ with_signer sizes.now.n (masters_at tally.now (ballot vote.now.voucher.number vote.now.voucher.order)) vote.now.signer }
{
    let mut masters = match tally.get(&ballot_of(&vote.voucher)) {
        Some(masters) => masters.copied(),
        None => VoterSet::empty(),
    };
    add_signer(&mut masters, sizes, vote.signer);
    masters
}

fn add_signer(masters: &mut VoterSet, sizes: &Sizes, signer: u32)
    ensures { masters.new ≡ with_signer sizes.now.n masters.old signer }
{
    if signer < sizes.n {
        let _was_new = masters.add(signer);
    }
}

/// Writes a vote's supporters down and, where they settle its number, its order. After want of memory both maps
/// say the same as before.
fn note(
    masters: &mut BTreeMap<[u64; 5], VoterSet, Global>,
    settled: &mut BTreeMap<u64, Order, Global>,
    voucher: &Voucher,
    supporters: VoterSet,
    settles: bool,
) -> Result<(), Want>
    ensures masters { OnOk result ((key : List ℕ) → masters_at masters.new key ≡ (if is_eq (slice_cmp nat_cmp (ballot voucher.now.number voucher.now.order) key) then supporters else masters_at masters.old key)) }
    ensures settled { OnOk result ((x : ℕ) → get nat_cmp settled.new x ≡ or_else (get nat_cmp settled.old x) (if nat_eq voucher.now.number x && settles then Some voucher.now.order else None)) }
    ensures masters_stay { OnErr result ((key : List ℕ) → masters_at masters.new key ≡ masters_at masters.old key) }
    ensures settled_stay { OnErr result ((x : ℕ) → get nat_cmp settled.new x ≡ get nat_cmp settled.old x) }
{
    let added = settle(settled, voucher, settles)?;
    if masters.insert(ballot_of(voucher), supporters).is_err() {
        unsettle(settled, voucher.number, added);
        return Err(Want);
    }
    Ok(())
}

/// Gives a number its order, where it has none yet, and says whether it did.
fn settle(
    settled: &mut BTreeMap<u64, Order, Global>,
    voucher: &Voucher,
    settles: bool,
) -> Result<bool, Want>
    ensures ok { OnOk result ((x : ℕ) → get nat_cmp settled.new x ≡ or_else (get nat_cmp settled.old x) (if nat_eq voucher.now.number x && settles then Some voucher.now.order else None)) }
    ensures added { IfOk result (λ added. added ≡ true → get nat_cmp settled.old voucher.now.number ≡ None) }
    ensures others { OnOk result ((x : ℕ) → nat_eq voucher.now.number x ≡ false → get nat_cmp settled.new x ≡ get nat_cmp settled.old x) }
    ensures kept { IfOk result (λ added. added ≡ false → settled.new.entries ≡ settled.old.entries) }
    ensures err { OnErr result (settled.new.entries ≡ settled.old.entries) }
{
    if !settles || settled.contains_key(&voucher.number) {
        return Ok(false);
    }
    settled.insert(voucher.number, voucher.order)?;
    Ok(true)
}

/// Takes a number's order away again, where it was added.
fn unsettle(settled: &mut BTreeMap<u64, Order, Global>, number: u64, added: bool)
    ensures { (x : ℕ) → get nat_cmp settled.new x ≡ (if nat_eq number x && added then None else get nat_cmp settled.old x) }
{
    if added {
        settled.remove(&number);
    }
}

/// A voucher's order and those of the numbers after it, up to the first without one.
fn run_with(
    alloc: Global,
    settled: &BTreeMap<u64, Order, Global>,
    first: &Voucher,
) -> Result<Vec<Order, Global>, Want>
    ensures some { IfOk result (λ run. 1 ≤ length run.items) }
    ensures each { IfOk result (λ run. (i : ℕ) → i < length run.items → slice_get run.items i ≡ order_with settled.now first.now (first.now.number + i)) }
    ensures end { IfOk result (λ run. first.now.number + length run.items < 2 ^ 64 → order_with settled.now first.now (first.now.number + length run.items) ≡ None) }
{
    let mut run = Vec::new(alloc);
    run.push(first.order)?;
    for last in first.number..u64::MAX {
        match settled.get(&(last + 1)) {
            Some(order) => run.push(*order)?,
            None => return Ok(run),
        }
    }
    Ok(run)
}

/// The last of the numbers after `count` up to the first without an order.
fn end_of_run(settled: &BTreeMap<u64, Order, Global>, count: u64) -> u64
    ensures from { count ≤ result }
    ensures run { (i : ℕ) → count ≤ i → i < result → IsSome (get nat_cmp settled.now (i + 1)) }
    ensures end { result + 1 < 2 ^ 64 → get nat_cmp settled.now (result + 1) ≡ None }
{
    for end in count..u64::MAX {
        if !settled.contains_key(&(end + 1)) {
            return end;
        }
    }
    u64::MAX
}
