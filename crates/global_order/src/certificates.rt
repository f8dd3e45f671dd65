ghost use Rattle.std.specs.Prelude.{◌≡◌, ℕ, List, IfOk};
ghost use Rattle.std.specs.List.{find};
ghost use Rattle.std.specs.Option.{option_map};
ghost use Rattle.message_types.specs.declared.ordering.Certificate.{Certificate as Cert};
ghost use Rattle.protocol_rules.specs.declared.facts.OrderFact.{OrderFact as Fact};
ghost use Rattle.protocol_rules.specs.Group.{Group};
ghost use Rattle.protocol_rules.specs.Words.{last_below};
ghost use Rattle.protocol_rules.specs.Order.{quorum_of, mark_by, certificate_of, certificate_at, least_prepared, last_certificate};
ghost use Rattle.protocol_rules.specs.Facts.{rows_known};
ghost use Rattle.global_order.specs.Choosing.{has_digest};
ghost use Rattle.global_order.specs.OrderState.{HasSizes};
ghost use Rattle.global_order.specs.Index.{HasPrepares, HasMarks, HasRows, HasChoices};

use crate::choices::Choices;
use crate::slots::{first_digest, least_digest};
use crate::votes::{Marks, Votes, push_signed, votes_of};
use message_types::{Certificate, Mark, Prepare, Signed};
use plain_lists::{Copied, Want};
use quorum_sets::Sizes;
use std::alloc::Global;

/// The first marks of the `q` lowest masters that marked the number.
pub fn marks_of(
    alloc: Global,
    marks: &Marks,
    sizes: &Sizes,
    s: u64,
) -> Result<Vec<Signed<Mark>>, Want>
    ensures { IfOk result (λ frames. (g : Group) (facts : List Fact) → HasSizes g sizes.now.n sizes.now.q → HasMarks facts marks.now → frames.items ≡ quorum_of g (mark_by s) facts) }
{
    let mut frames = Vec::new(alloc);
    for master in 0..sizes.n {
        push_signed(&mut frames, master, Mark { s }, marks.get(&(s, master)))?;
    }
    frames.truncate(sizes.q as usize);
    Ok(frames)
}

/// The certificate for number `s` of the highest view below `below`.
pub fn last_certificate_of(
    alloc: Global,
    choices: &Choices,
    votes: &Votes,
    sizes: &Sizes,
    below: u64,
    s: u64,
) -> Result<Option<Certificate>, Want>
    ensures { IfOk result (λ answer. (g : Group) (facts : List Fact) → HasSizes g sizes.now.n sizes.now.q → HasPrepares facts votes.now → HasChoices g facts choices.now
        → answer ≡ last_certificate g facts below s) }
{
    let mut v = below;
    while v > 0 {
        v -= 1;
        let certificate = certificate_in(alloc, choices, votes, sizes, v, s)?;
        if certificate.is_some() {
            return Ok(certificate);
        }
    }
    Ok(None)
}

/// The certificate for number `s` of view `v`.
fn certificate_in(
    alloc: Global,
    choices: &Choices,
    votes: &Votes,
    sizes: &Sizes,
    v: u64,
    s: u64,
) -> Result<Option<Certificate>, Want>
    ensures { IfOk result (λ answer. (g : Group) (facts : List Fact) → HasSizes g sizes.now.n sizes.now.q → HasPrepares facts votes.now → HasChoices g facts choices.now
        → answer ≡ option_map (certificate_of g facts s v) (least_prepared g facts v s)) }
{
    let Some(digest) = least_digest(&choices.prepared, v, s) else {
        return Ok(None);
    };
    certificate_with(alloc, choices, votes, sizes, v, s, digest)
}

/// The certificate for number `s` of view `v` that was complete first.
pub fn first_certificate_of(
    alloc: Global,
    choices: &Choices,
    votes: &Votes,
    sizes: &Sizes,
    v: u64,
    s: u64,
) -> Result<Option<Certificate>, Want>
    ensures { IfOk result (λ answer. (g : Group) (facts : List Fact) → HasSizes g sizes.now.n sizes.now.q → HasPrepares facts votes.now → HasChoices g facts choices.now
        → answer ≡ certificate_at g facts s v) }
{
    let Some(digest) = first_digest(&choices.prepared, v, s) else {
        return Ok(None);
    };
    certificate_with(alloc, choices, votes, sizes, v, s, digest)
}

/// The certificate for number `s` of view `v` with this digest, where its rows are known.
fn certificate_with(
    alloc: Global,
    choices: &Choices,
    votes: &Votes,
    sizes: &Sizes,
    v: u64,
    s: u64,
    digest: [u8; 32],
) -> Result<Option<Certificate>, Want>
    ensures { IfOk result (λ answer. (g : Group) (facts : List Fact) → HasSizes g sizes.now.n sizes.now.q → HasPrepares facts votes.now → HasRows (rows_known facts) choices.now.rows
        → answer ≡ option_map (certificate_of g facts s v) (find (has_digest digest) (rows_known facts))) }
{
    let Some(rows) = choices.rows.get(&digest) else {
        return Ok(None);
    };
    let rows = rows.copy()?;
    let prepare = Prepare { v, s, digest };
    let prepares = votes_of(alloc, votes, sizes, v, s, digest, prepare)?;
    Ok(Some(Certificate {
        s,
        v,
        rows,
        prepares,
    }))
}
