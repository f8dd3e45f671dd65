//! The updates that were said, and what happened before and since.
ghost use Rattle.std.specs.Prelude.{◌≡◌, drop, take, IfOk};
ghost use Rattle.delay_times.specs.Sayings.{said_at, said_by, sayings_in};

use crate::happening::{Happening, Name, What};
use plain_lists::{Want, extend_option};
use std::alloc::Global;

/// An update that a client said: its name, the stamp of the entry and the client's actor, and the place of this among all that
/// happened.
#[derive(Clone, Copy)]
pub struct Saying {
    pub place: usize,
    pub stamp: u64,
    pub actor: u32,
    pub name: Name,
}

/// The first of these, so many.
pub(crate) fn before(happenings: &[Happening], place: usize) -> &[Happening]
    ensures { result.now ≡ take place happenings.now }
{
    if place < happenings.len() {
        &happenings[..place]
    } else {
        happenings
    }
}

/// What stands behind the first of these, so many.
pub(crate) fn since(happenings: &[Happening], place: usize) -> &[Happening]
    ensures { result.now ≡ drop place happenings.now }
{
    if place < happenings.len() {
        &happenings[place..]
    } else {
        &[]
    }
}

/// The update that this is the saying of, if it is one.
fn said_by(place: usize, happening: Happening) -> Option<Saying>
    ensures { result ≡ said_by place happening }
{
    match happening.what {
        What::Said { client, t } => Some(Saying {
            place,
            stamp: happening.stamp,
            actor: happening.actor,
            name: Name { client, t },
        }),
        _ => None,
    }
}

/// The update that is said at this place, if one is.
fn said_at(happenings: &[Happening], place: usize) -> Option<Saying>
    ensures { result ≡ said_at happenings.now place }
{
    match happenings.get(place) {
        Some(happening) => said_by(place, *happening),
        None => None,
    }
}

/// All updates said, in the order in which they were said.
#[tactic(auto, unfolding(crate::specs::Sayings::sayings_in))]
pub(crate) fn sayings_of(alloc: Global, happenings: &[Happening]) -> Result<Vec<Saying>, Want>
    ensures { IfOk result (λ sayings. sayings.items ≡ sayings_in happenings.now) }
{
    let mut sayings = Vec::new(alloc);
    for place in 0..happenings.len() {
        extend_option(&mut sayings, said_at(happenings, place))?;
    }
    Ok(sayings)
}
