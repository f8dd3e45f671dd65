//! What is posted of an entry.
ghost use Rattle.std.specs.Prelude.{◌≡◌, true, map, nat_lt, IsTrue, IfOk};
ghost use Rattle.std.specs.List.{list_all};
ghost use Rattle.scenario_file.specs.Reading.{contents};
ghost use Rattle.message_types.specs.Spelling.{has_spelling};
ghost use Rattle.checked_frames.specs.Standing.{StandsSomewhere};
ghost use Rattle.history_rules.specs.Events.{Cry};
ghost use Rattle.history_rules.specs.Setup.{Setup, stands};
ghost use Rattle.world_rules.specs.Frames.{addressees as addressees_of, cried};
ghost use Rattle.world_rules.specs.Scenarios.{setup_of};
ghost use Rattle.run_scripts.specs.Mail.{held_at, post_to, posts_from};
ghost use Rattle.run_scripts.specs.Playing.{IsWorld};

use crate::mail::{Held, Post};
use crate::playing::World;
use checked_frames::{Checked, RingMemory};
use intruder_words::kind_of;
use message_types::Frame;
use plain_lists::{Items, Want};
use std::alloc::Global;
use world_history::{addressees, cried, if_standing};

/// A frame of a correct actor, which stands: no part of it is tried.
fn hold(alloc: Global, stamp: u64, place: usize, frame: Frame) -> Result<Option<Held>, Want>
    requires { StandsSomewhere frame }
    ensures { IfOk result (λ held. (w : Setup) → stands w frame ≡ true → held ≡ held_at w stamp place frame) }
{
    match u32::try_from(place) {
        Ok(place) => Ok(Some(Held {
            stamp,
            place,
            frame: Checked::from_standing(alloc, frame)?,
        })),
        Err(_) => Ok(None),
    }
}

/// A correct actor's frame as it is posted.
fn post_of(
    world: &World<'_>,
    from: u32,
    stamp: u64,
    place: usize,
    frame: Frame,
) -> Result<Post, Want>
    requires world { IsWorld world.now }
    requires stands { stands (setup_of (contents world.now.scenario.now)) frame ≡ true }
    ensures { IfOk result (λ post. post ≡ post_to (addressees_of (setup_of (contents world.now.scenario.now)).group from frame.body)
        (setup_of (contents world.now.scenario.now)) from stamp place frame) }
{
    Ok(Post {
        from,
        kind: kind_of(&frame.body),
        to: addressees(world.alloc, &world.scenario.sizes, from, &frame.body)?,
        held: hold(world.alloc, stamp, place, frame)?,
    })
}

/// A correct actor's frames of one entry as they are posted.
pub(crate) fn posts_of(
    world: &World<'_>,
    from: u32,
    stamp: u64,
    frames: Vec<Frame>,
) -> Result<Vec<Post>, Want>
    requires world { IsWorld world.now }
    requires stand { list_all (stands (setup_of (contents world.now.scenario.now))) frames.items ≡ true }
    ensures { IfOk result (λ posts. posts.items ≡ posts_from (setup_of (contents world.now.scenario.now)) from stamp 0 frames.items) }
{
    let mut posts = Vec::with_capacity(world.alloc, frames.len())?;
    for frame in frames {
        let place = posts.len();
        posts.push(post_of(world, from, stamp, place, frame)?)?;
    }
    Ok(posts)
}

/// An intruded master's frame, which is tried here and never again.
fn hold_if_standing(world: &World<'_>, stamp: u64, frame: Frame) -> Result<Option<Held>, Want>
    requires world { IsWorld world.now }
    requires spelled { IsTrue (has_spelling frame) }
    ensures { IfOk result (λ held. held ≡ held_at (setup_of (contents world.now.scenario.now)) stamp 0 frame) }
{
    let mut memory = RingMemory::none(world.alloc);
    let found = if_standing(world.alloc, &world.ring, &mut memory, frame)?;
    match found {
        Some(frame) => Ok(Some(Held {
            stamp,
            place: 0,
            frame,
        })),
        None => Ok(None),
    }
}

fn as_actors(alloc: Global, to: &[u64]) -> Result<Items<u32>, Want>
    requires { list_all (λ a. nat_lt a 26) to.now ≡ true }
    ensures { IfOk result (λ made. made ≡ to.now) }
{
    let mut made = Items::new(alloc);
    for actor in to {
        made.push(*actor as u32)?;
    }
    Ok(made)
}

/// An intruded master's frame as it is posted to these.
fn cried_post(
    world: &World<'_>,
    from: u32,
    to: &[u64],
    stamp: u64,
    frame: Frame,
) -> Result<Post, Want>
    requires world { IsWorld world.now }
    requires to { list_all (λ a. nat_lt a 26) to.now ≡ true }
    requires spelled { IsTrue (has_spelling frame) }
    ensures { IfOk result (λ post. post ≡ post_to to.now (setup_of (contents world.now.scenario.now)) from stamp 0 frame) }
{
    Ok(Post {
        from,
        kind: kind_of(&frame.body),
        to: as_actors(world.alloc, to)?,
        held: hold_if_standing(world, stamp, frame)?,
    })
}

/// What is posted of a cry: the frame that its bytes spell, if they spell one.
pub(crate) fn cried_posts(
    world: &World<'_>,
    from: u32,
    to: &[u64],
    stamp: u64,
    bytes: &[u8],
) -> Result<Vec<Post>, Want>
    requires world { IsWorld world.now }
    requires to { list_all (λ a. nat_lt a 26) to.now ≡ true }
    ensures { IfOk result (λ posts. posts.items
        ≡ map (post_to to.now (setup_of (contents world.now.scenario.now)) from stamp 0) (cried (Cry bytes.now))) }
{
    let mut posts = Vec::new(world.alloc);
    match cried(world.alloc, bytes)? {
        Some(frame) => {
            posts.push(cried_post(world, from, to, stamp, frame)?)?;
            Ok(posts)
        }
        None => Ok(posts),
    }
}
