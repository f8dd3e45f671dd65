ghost use Rattle.std.specs.Prelude.{◌≡◌, ◌++◌, ◌∷◌, ℕ, List, [], false, map, OnOk};
ghost use Rattle.message_types.specs.declared.body.Body.{Body as Word};
ghost use Rattle.std.specs.List.{list_any};
ghost use Rattle.indexmap.specs.IndexMap.{get};
ghost use Rattle.history_rules.specs.Sameness.{is_same_body};
ghost use Rattle.protocol_rules.specs.Keys.{Key as KeyOf, same_key};
ghost use Rattle.history_audit.specs.Said.{mark_of, key_of, sum_of, bodies_at, was_said, HasWords};

use indexmap::IndexMap;
use message_types::Body;
use plain_lists::{Same, Want};
use std::alloc::Global;

/// An actor, a kind of bodies, and two numbers of a body.
pub type Key = (u32, u8, u64, u64);

/// The words said: under each key the different bodies that have it, which are few.
pub type Said<'a> = IndexMap<Key, Vec<&'a Body>>;

/// What a word is kept under.
fn key_of(actor: u32, body: &Body) -> Key
    ensures { result ≡ key_of actor body.now }
{
    let (kind, first, second) = mark_of(body);
    (actor, kind, first, second)
}

/// A body's kind and two of its numbers.
fn mark_of(body: &Body) -> (u8, u64, u64)
    ensures { result ≡ mark_of body.now }
{
    match body {
        Body::Update(word) => (1, u64::from(word.client), word.t),
        Body::PoRequest(word) => (2, word.k, 0),
        Body::PoAck(word) => (3, u64::from(word.j), word.k),
        Body::PoSummary(word) => (4, sum_of(word.numbers.as_slice()), 0),
        Body::PrePrepare(word) => (5, word.v, word.s),
        Body::Prepare(word) => (6, word.v, word.s),
        Body::Commit(word) => (7, word.v, word.s),
        Body::Ping(word) => (8, word.number, 0),
        Body::Pong(word) => (9, u64::from(word.to), word.number),
        Body::Rtt(word) => (10, u64::from(word.to), word.number),
        Body::TatReport(word) => (11, word.v, word.ticks),
        Body::TatBound(word) => (12, word.v, word.ticks),
        Body::Suspect(word) => (13, word.v, 0),
        Body::Report(word) => (14, word.v, word.base),
        Body::NewView(word) => (15, word.v, 0),
        Body::AskUpdate(word) => (16, u64::from(word.j), word.k),
        Body::Give(word) => (17, u64::from(word.request.signer), word.request.body.k),
        Body::AskOrder(word) => (18, word.s, 0),
        Body::GiveOrdered(word) => (19, word.s, word.v),
        Body::Voucher(word) => (20, u64::from(word.client), word.number),
        Body::Mark(word) => (21, word.s, 0),
    }
}

// A master's summaries never shrink, so their sums tell them apart.
fn sum_of(numbers: &[u64]) -> u64
    ensures { result ≡ sum_of numbers.now }
{
    let mut sum = 0u64;
    for number in numbers {
        sum = sum.wrapping_add(*number);
    }
    sum
}

/// Whether the actor said the body.
pub fn is_said(said: &Said<'_>, actor: u32, body: &Body) -> bool
    ensures { (words : List (ℕ × Word)) → HasWords words said.now → result ≡ was_said words actor body.now }
{
    match said.get(&key_of(actor, body)) {
        Some(bodies) => is_among(bodies.as_slice(), body),
        None => false,
    }
}

fn is_among(bodies: &[&Body], body: &Body) -> bool
    ensures { result ≡ list_any (is_same_body body.now) (map (λ b. b.now) bodies.now) }
{
    for other in bodies {
        if is_same_word(body, other) {
            return true;
        }
    }
    false
}

fn is_same_word(a: &Body, b: &Body) -> bool
    ensures { result ≡ is_same_body a.now b.now }
{
    a.is_same(b)
}

// Takes out the bodies under a key.
fn take_bodies<'a>(alloc: Global, said: &mut Said<'a>, key: Key) -> Vec<&'a Body>
    ensures bodies { map (λ b. b.now) result.items ≡ bodies_at said.old key }
    ensures others { (q : KeyOf) → same_key key q ≡ false → get same_key said.new q ≡ get same_key said.old q }
{
    match said.swap_remove(&key) {
        Some(bodies) => bodies,
        None => Vec::new(alloc),
    }
}

/// Adds a word.
pub fn note_word<'a>(
    alloc: Global,
    said: &mut Said<'a>,
    actor: u32,
    body: &'a Body,
) -> Result<(), Want>
    ensures { OnOk result ((words : List (ℕ × Word)) → HasWords words said.old → HasWords (words ++ (actor, body.now) ∷ []) said.new) }
{
    if is_said(said, actor, body) {
        return Ok(());
    }
    let key = key_of(actor, body);
    let mut bodies = take_bodies(alloc, said, key);
    bodies.push(body)?;
    said.insert(key, bodies)?;
    Ok(())
}

/// Adds the words that an actor said at an entry.
pub fn note_words<'a>(
    alloc: Global,
    said: &mut Said<'a>,
    actor: u32,
    bodies: &'a [Body],
) -> Result<(), Want>
    ensures { OnOk result ((words : List (ℕ × Word)) → HasWords words said.old → HasWords (words ++ map (λ b. (actor, b)) bodies.now) said.new) }
{
    for body in bodies {
        note_word(alloc, said, actor, body)?;
    }
    Ok(())
}
