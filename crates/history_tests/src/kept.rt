//! Actors with their keepers.
ghost use Rattle.std.specs.Prelude.{◌≡◌, ◌+◌, ◌<◌, ◌^◌, false, true, length, map, nat_lt, IsTrue};
ghost use Rattle.std.specs.List.{list_all};
ghost use Rattle.scenario_file.specs.Reading.{contents};
ghost use Rattle.scenario_file.specs.Valid.{IsScenario};
ghost use Rattle.world_entries.specs.Entries.{entry_of, event_of};
ghost use Rattle.world_rules.specs.Scenarios.{group_in};
ghost use Rattle.world_history.specs.State.{setup_in};
ghost use Rattle.world_history.specs.KeptState.{halted_in};

use crate::common::{has_actor, is_later};
use message_types::{Frame, Op};
use scenario_file::Scenario;
use std::test::Fail;
use world_history::{Event, Kept};

/// Masters 0 to 3 and a screen as actor 4, of whose keeper the second call fails.
const ONE_FAULT: &str =
    "f = 1\nseed = \"0000000000000000000000000000000000000000000000000000000000000000\"\nlevels = [5]\nscreens = 1\n[[keeper]]\nactor = \"s0\"\nfailing = [2]\n";

/// The same, where no call fails.
const NO_FAULT: &str =
    "f = 1\nseed = \"0000000000000000000000000000000000000000000000000000000000000000\"\nlevels = [5]\nscreens = 1\n";

/// Whether the actor can have the event now.
fn may_act(kept: &Kept, stamp: u64, event: &Event) -> bool
    requires { kept.now.is_spent ≡ false }
    ensures running { IsTrue result → halted_in kept.now.bench ≡ false }
    ensures fits { IsTrue result → (setup_in kept.now.bench).fits kept.now.bench.actor (event_of event.now) ≡ true }
    ensures later { IsTrue result → list_all (λ e. nat_lt e.stamp stamp) kept.now.bench.list ≡ true }
    ensures short { IsTrue result → length kept.now.bench.list < 2 ^ 32 }
{
    if kept.halted() {
        return false;
    }
    let bench = kept.bench();
    if !bench.fits(event) {
        return false;
    }
    let list = bench.list();
    if !is_later(list, stamp) {
        return false;
    }
    list.len() < 40
}

#[test]
fn an_actor_is_halted_at_the_call_that_fails(rt: HostRuntime) -> Result<(), Fail> {
    let alloc = rt.alloc();
    let scenario = Scenario::read(alloc, ONE_FAULT.as_bytes())?;
    assert!(rt; has_actor(&scenario, 4));
    let mut kept = Kept::make(alloc, &scenario, 4)?;
    let first = Event::Command {
        op: Op::Ack { alarm: 0 },
    };
    assert!(rt; may_act(&kept, 0, &first));
    let frames = kept.act(&scenario, 0, first)?;
    assert_eq!(rt; frames.len(), 1);
    let second = Event::Command {
        op: Op::Ack { alarm: 1 },
    };
    assert!(rt; may_act(&kept, 1, &second));
    let none = kept.act(&scenario, 1, second)?;
    assert_eq!(rt; none.len(), 0);
    assert!(rt; kept.halted());
    assert_eq!(rt; kept.bench().list().len(), 2);
    Ok(())
}

/// Whether both lists begin with a frame, of the same signature.
fn begin_alike(frames: &[Frame], others: &[Frame]) -> bool {
    match (frames.first(), others.first()) {
        (Some(frame), Some(other)) => frame.sig.as_slice() == other.sig.as_slice(),
        _ => false,
    }
}

#[test]
fn a_restart_posts_the_entry_before_again(rt: HostRuntime) -> Result<(), Fail> {
    let alloc = rt.alloc();
    let scenario = Scenario::read(alloc, NO_FAULT.as_bytes())?;
    assert!(rt; has_actor(&scenario, 4));
    let mut kept = Kept::make(alloc, &scenario, 4)?;
    let command = Event::Command {
        op: Op::Ack { alarm: 0 },
    };
    assert!(rt; may_act(&kept, 0, &command));
    let first = kept.act(&scenario, 0, command)?;
    let restart = Event::Restart;
    assert!(rt; may_act(&kept, 1, &restart));
    let again = kept.act(&scenario, 1, restart)?;
    assert!(rt; begin_alike(&first, &again));
    assert!(rt; !kept.halted());
    Ok(())
}
