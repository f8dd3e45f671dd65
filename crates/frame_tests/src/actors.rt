ghost use Rattle.std.specs.Prelude.{◌<◌, IfOk};
ghost use Rattle.checked_frames.specs.Standing.{actors};

use actor_keys::{actor_key, ring_of};
use checked_frames::KeyRing;
use hash_signatures::KeyState;
use quorum_sets::Sizes;
use std::alloc::Global;
use std::test::Fail;

const SEED: [u8; 32] = [7; 32];

// The public keys of m0 and s0, the last actor, of a scenario with this seed, four masters, one screen and one level of
// height 5, as a program printed them that was written apart from this one, in another language.
const FIRST: &str =
    "0000000100000005000000035a9db73b656942317ea4eec716b6fcfd0a837b36a8044909a143fe38de4890c92ce0a39d9411cbc8a208f571ddb18836";

const LAST: &str =
    "0000000100000005000000033a632d19204527ab6d395614ff8b70ee02e5c68773bad20946d58f1a0722880c11815c47232c634058894ddfd6fa961d";

fn key_of(alloc: Global, actor: u32) -> Result<KeyState, Fail> {
    let key = actor_key(alloc, &SEED, &[5], actor)?;
    Ok(key)
}

fn ring_of_five(alloc: Global) -> Result<KeyRing, Fail>
    ensures { IfOk result (λ ring. 4 < actors ring.group) }
{
    let sizes = Sizes::new(1, 0)?;
    let ring = ring_of(alloc, sizes, 1, &SEED, &[5])?;
    Ok(ring)
}

#[test]
fn actors_have_the_keys_of_another_program(rt: HostRuntime) -> Result<(), Fail> {
    let first = key_of(rt.alloc(), 0)?;
    assert!(rt; hex::encode(rt.alloc(), first.public())?.as_str() == FIRST);
    let ring = ring_of_five(rt.alloc())?;
    assert!(rt; hex::encode(rt.alloc(), ring.public(4))?.as_str() == LAST);
    Ok(())
}
