//! One command of an operator seen through by hand, bench by bench and frame by frame.
ghost use Rattle.std.specs.Prelude.{◌≡◌, ◌+◌, ◌<◌, IfOk};
ghost use Rattle.scenario_file.specs.Reading.{contents};
ghost use Rattle.scenario_file.specs.Valid.{IsScenario};
ghost use Rattle.history_rules.specs.Legal.{TakesWell};
ghost use Rattle.world_entries.specs.Entries.{event_of};
ghost use Rattle.world_rules.specs.Scenarios.{group_in};
ghost use Rattle.world_history.specs.State.{setup_in};

use crate::common::{has_actor, is_later};
use checked_frames::{Checked, KeyRing, check};
use message_types::Op;
use plain_lists::{Copied, Want};
use scenario_file::Scenario;
use std::alloc::Global;
use std::marker::Model;
use std::process::Abort;
use std::test::Fail;
use world_history::laws::stands_by_ring;
use world_history::{Bench, Event, ring_of};

/// Masters 0 to 3 and a screen as actor 4.
const ONE_SCREEN: &str =
    "f = 1\nseed = \"0000000000000000000000000000000000000000000000000000000000000000\"\nlevels = [5]\nscreens = 1\n";

/// A bench, with the ring of its scenario's keys.
struct Seen {
    alloc: Global,
    bench: Bench,
    ring: KeyRing,
}

// Taken apart here once, and not where a room of them is left early.
impl Drop for Seen {
    fn drop(self) {
        let Seen {
            alloc: _,
            bench: _,
            ring: _,
        } = self;
    }
}

impl Model for Seen {
    ghost use Rattle.std.specs.Prelude.{◌≡◌};
    ghost use Rattle.std.specs.Coded.{codes};
    ghost use Rattle.interlocks.specs.Code.{formula_code};
    ghost use Rattle.world_history.specs.Signed.{ring_in};
    ghost use Rattle.world_history.specs.State.{BenchState};

    ghost Value = { BenchState };

    ghost coded = { Prim.hlevel (codes, formula_code) };

    ghost view = { λ seen. seen.bench };

    ghost invariant = { λ seen. seen.ring ≡ ring_in seen.bench.world };
}

/// A frame, with who said it at which stamp and place.
#[derive(Drop)]
struct Said {
    actor: usize,
    stamp: u64,
    place: u32,
    frame: Checked,
}

impl Seen {
    fn make(alloc: Global, scenario: &Scenario, actor: u32) -> Result<Seen, Want>
        requires valid { IsScenario (contents scenario.now) }
        requires there { actor < (group_in (contents scenario.now)).n + (group_in (contents scenario.now)).clients }
    {
        let bench = Bench::make(alloc, scenario, actor)?;
        let ring = ring_of(alloc, scenario)?;
        Ok(Seen { alloc, bench, ring })
    }

    /// The frames of what the actor says at an event.
    fn act(&mut self, rt: &impl Abort, stamp: u64, event: Event) -> Result<Vec<Checked>, Want>
        requires { TakesWell (setup_in self.old) stamp (event_of event) }
    {
        assert!(rt; self.bench.fits(&event));
        assert!(rt; is_later(self.bench.list(), stamp));
        let place = self.bench.list().len();
        assert!(rt; place < 1000);
        self.bench.act(stamp, event)?;
        let mut said = Vec::new(self.alloc);
        for frame in self.bench.frames_at(place).unwrap_or(&[]) {
            said.push(frame.copy()?)?;
        }
        Ok(said)
    }

    /// The same at a frame that is taken, once it is tried by the ring.
    fn take(&mut self, rt: &impl Abort, stamp: u64, said: &Said) -> Result<Vec<Checked>, Fail> {
        let frame = check(self.alloc, &self.ring, said.frame.frame().copy()?)?;
        assert!(rt; said.stamp < stamp);
        stands_by_ring();
        let event = Event::Took {
            stamp: said.stamp,
            place: said.place,
            frame,
        };
        Ok(self.act(rt, stamp, event)?)
    }
}

/// Benches, the stamp of the next entry, and what was said since the last round.
struct Room {
    alloc: Global,
    seen: Vec<Seen>,
    stamp: u64,
    news: Vec<Said>,
}

// Taken apart here once.
impl Drop for Room {
    fn drop(self) {
        let Room {
            alloc: _,
            seen: _,
            stamp: _,
            news: _,
        } = self;
    }
}

impl Room {
    fn make(rt: &impl Abort, alloc: Global, scenario: &Scenario) -> Result<Room, Want>
        requires { IsScenario (contents scenario.now) }
    {
        let mut seen = Vec::new(alloc);
        for actor in 0..5u32 {
            assert!(rt; has_actor(scenario, actor));
            seen.push(Seen::make(alloc, scenario, actor)?)?;
        }
        Ok(Room {
            alloc,
            seen,
            stamp: 0,
            news: Vec::new(alloc),
        })
    }

    /// Notes what was said at the entry just made.
    fn tell(&mut self, rt: &impl Abort, actor: usize, frames: Vec<Checked>) -> Result<(), Want> {
        let mut place = 0u32;
        for frame in frames {
            self.news.push(Said {
                actor,
                stamp: self.stamp,
                place,
                frame,
            })?;
            assert!(rt; place < 1000);
            place += 1;
        }
        assert!(rt; self.stamp < 1000);
        self.stamp += 1;
        Ok(())
    }

    fn command(&mut self, rt: &impl Abort, actor: usize) -> Result<(), Want> {
        let event = Event::Command {
            op: Op::Ack { alarm: 0 },
        };
        assert!(rt; actor < self.seen.len());
        let frames = self.seen[actor].act(rt, self.stamp, event)?;
        self.tell(rt, actor, frames)
    }

    fn tick(&mut self, rt: &impl Abort, actor: usize) -> Result<(), Want> {
        assert!(rt; actor < self.seen.len());
        let frames = self.seen[actor].act(rt, self.stamp, Event::Tick)?;
        self.tell(rt, actor, frames)
    }

    /// A frame is taken by all others.
    fn pass(&mut self, rt: &impl Abort, said: &Said) -> Result<(), Fail> {
        for actor in 0..self.seen.len() {
            if actor != said.actor {
                assert!(rt; actor < self.seen.len());
                let frames = self.seen[actor].take(rt, self.stamp, said)?;
                self.tell(rt, actor, frames)?;
            }
        }
        Ok(())
    }

    /// Each frame of the last round is taken by all others.
    fn flow(&mut self, rt: &impl Abort) -> Result<(), Fail> {
        let news = std::mem::replace(&mut self.news, Vec::new(self.alloc));
        for said in &news {
            self.pass(rt, said)?;
        }
        Ok(())
    }

    /// That many rounds.
    fn rounds(&mut self, rt: &impl Abort, count: u64) -> Result<(), Fail> {
        for _round in 0..count {
            self.flow(rt)?;
        }
        Ok(())
    }

    /// The screen's command is asked for, ordered and executed.
    fn see_through(&mut self, rt: &impl Abort) -> Result<(), Fail> {
        self.command(rt, 4)?;
        self.rounds(rt, 3)?;
        for master in 0..4 {
            self.tick(rt, master)?;
        }
        self.rounds(rt, 1)?;
        self.tick(rt, 0)?;
        self.rounds(rt, 5)
    }
}

#[test]
fn a_command_is_seen_through(rt: HostRuntime) -> Result<(), Fail> {
    let alloc = rt.alloc();
    let scenario = Scenario::read(alloc, ONE_SCREEN.as_bytes())?;
    let mut room = Room::make(&rt, alloc, &scenario)?;
    room.see_through(&rt)?;
    assert_eq!(rt; room.seen.len(), 5);
    for master in 0..4 {
        assert_eq!(rt; room.seen[master].bench.executions().len(), 1);
    }
    assert_eq!(rt; room.seen[4].bench.board().len(), 1);
    Ok(())
}
