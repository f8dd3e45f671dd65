//! Benches of all roles.
ghost use Rattle.std.specs.Prelude.{IfOk, ◌≡◌, ◌+◌, ◌<◌, ◌^◌, length, map, nat_lt, true, IsTrue};
ghost use Rattle.std.specs.List.{list_all};
ghost use Rattle.play_words.specs.Accepted.{is_accepted};
ghost use Rattle.scenario_file.specs.Reading.{contents};
ghost use Rattle.scenario_file.specs.Valid.{IsScenario};
ghost use Rattle.world_entries.specs.Entries.{entry_of};
ghost use Rattle.world_rules.specs.Scenarios.{group_in};

use crate::common::{has_actor, is_later};
use message_forms::read_frame;
use message_types::{Body, Frame, Op, Signed};
use plain_lists::{Bytes, Want};
use point_table::Area;
use scenario_file::Scenario;
use std::alloc::Global;
use std::process::Abort;
use std::test::Fail;
use world_history::{Bench, Event, Ref, Word};

/// Masters 0 to 3, the last of them intruded, a proxy as actor 4 and a screen as actor 5. Each has 32 leaves.
const OF_ALL_ROLES: &str =
    "f = 1\nseed = \"0000000000000000000000000000000000000000000000000000000000000000\"\nlevels = [5]\nintruded = [3]\nscreens = 1\n[[proxy]]\ncoils = 1\ndiscrete = 0\nholding = 0\ninput = 0\n";

/// The bench of an actor of that scenario.
fn bench_of(rt: &impl Abort, alloc: Global, actor: u32) -> Result<Bench, Fail> {
    let scenario = Scenario::read(alloc, OF_ALL_ROLES.as_bytes())?;
    assert!(rt; has_actor(&scenario, actor));
    Ok(Bench::make(alloc, &scenario, actor)?)
}

fn command() -> Event {
    Event::Command {
        op: Op::Ack { alarm: 0 },
    }
}

/// One command of a screen, with the frames of what it says.
fn one_more(rt: &impl Abort, screen: &mut Bench, stamp: u64) -> Result<Vec<Frame>, Want> {
    let event = Event::Command {
        op: Op::Ack { alarm: 0 },
    };
    assert!(rt; screen.fits(&event));
    assert!(rt; is_later(screen.list(), stamp));
    assert!(rt; screen.list().len() < 40);
    screen.act(stamp, event)
}

/// Whether these frames are one update of that number.
fn is_update(frames: &[Frame], number: u64) -> bool {
    match frames.first() {
        Some(frame) => matches!(&frame.body, Body::Update(update) if update.t == number),
        None => false,
    }
}

#[test]
fn a_screen_signs_its_commands_until_its_key_is_spent(rt: HostRuntime) -> Result<(), Fail> {
    let alloc = rt.alloc();
    let mut screen = bench_of(&rt, alloc, 5)?;
    assert_eq!(rt; screen.left(), 32);
    for stamp in 0..32u64 {
        let frames = one_more(&rt, &mut screen, stamp)?;
        assert!(rt; is_update(&frames, stamp + 1), "at {stamp}");
    }
    assert_eq!(rt; screen.left(), 0);
    // Its key is spent: the command is an entry, and nothing is said.
    let frames = one_more(&rt, &mut screen, 32)?;
    assert_eq!(rt; frames.len(), 0);
    assert_eq!(rt; screen.list().len(), 33);
    Ok(())
}

/// Events of all kinds that an actor can have by itself, with a cry of these bytes.
fn events(bytes: Bytes) -> [Event; 7] {
    [
        Event::Tick,
        Event::Restart,
        Event::Cry { bytes },
        command(),
        Event::Poll,
        Event::Field {
            area: Area::Coil,
            place: 0,
            value: 1,
        },
        Event::Field {
            area: Area::Coil,
            place: 1,
            value: 1,
        },
    ]
}

#[test]
fn each_actor_has_the_events_of_its_role(rt: HostRuntime) -> Result<(), Fail> {
    let alloc = rt.alloc();
    // Of these events, which ones each actor can have.
    let roles = [
        (0, [true, true, false, false, false, false, false]),
        (3, [true, false, true, false, false, false, false]),
        (4, [true, true, false, false, true, true, false]),
        (5, [true, true, false, true, false, false, false]),
    ];
    for (actor, wanted) in roles {
        let bytes = Bytes::from_slice(alloc, &[])?;
        let bench = bench_of(&rt, alloc, actor)?;
        assert_eq!(rt; bench.actor(), actor);
        let events = events(bytes);
        for (event, fits) in events.iter().zip(wanted) {
            assert_eq!(rt; bench.fits(event), fits, "at {actor}");
        }
        assert_eq!(rt; bench.executions().len(), 0);
        assert_eq!(rt; bench.view(), 0);
        assert_eq!(rt; bench.writes().len(), 0);
        assert!(rt; bench.certified(0, 1).is_none());
    }
    Ok(())
}

/// Bytes that spell no frame.
#[tactic(auto, unfolding(play_words::specs::Accepted::is_accepted))]
fn raw(alloc: Global) -> Result<Word, Want>
    ensures { IfOk result (λ word. IsTrue (is_accepted word)) }
{
    Ok(Word::Raw {
        bytes: Bytes::from_slice(alloc, &[1, 2, 3])?,
    })
}

#[tactic(auto, unfolding(play_words::specs::Accepted::is_accepted))]
fn ping(number: u64) -> Word
    ensures { IsTrue (is_accepted result) }
{
    Word::Ping { number }
}

/// A request for the first update of actor 4.
#[tactic(auto, unfolding(play_words::specs::Accepted::is_accepted))]
fn request() -> Word
    ensures { IsTrue (is_accepted result) }
{
    Word::PoRequest {
        k: 1,
        update: Ref {
            actor: 4,
            kind: 1,
            number: 1,
        },
    }
}

/// What an intruded master says where it is made to say a word.
fn said(rt: &impl Abort, master: &mut Bench, word: &Word) -> Result<Option<Vec<u8>>, Want>
    requires { IsTrue (is_accepted word.now) }
{
    assert!(rt; master.is_intruded());
    master.speak(word)
}

/// The same of a ping, read as a frame.
fn ping_said(
    rt: &impl Abort,
    alloc: Global,
    master: &mut Bench,
    number: u64,
) -> Result<Option<Frame>, Fail> {
    match said(rt, master, &ping(number))? {
        Some(bytes) => Ok(Some(read_frame(alloc, &bytes)?)),
        None => Ok(None),
    }
}

/// Who signed a ping with which leaf: a signature of one level begins with four zeros and the number of its leaf.
fn ping_signed(frame: &Option<Frame>) -> Option<(u32, u8)> {
    match frame {
        Some(
            Signed {
                signer,
                body: Body::Ping(_),
                sig,
            },
        ) => Some((*signer, sig.as_slice().get(7).copied()?)),
        _ => None,
    }
}

#[test]
fn an_intruded_master_signs_what_it_is_made_to_say(rt: HostRuntime) -> Result<(), Fail> {
    let alloc = rt.alloc();
    let word = raw(alloc)?;
    let mut master = bench_of(&rt, alloc, 3)?;
    let bytes = said(&rt, &mut master, &word)?;
    assert!(rt; bytes.is_some_and(|bytes| bytes.as_slice() == [1, 2, 3].as_slice()));
    // It knows no update.
    assert!(rt; said(&rt, &mut master, &request())?.is_none());
    assert_eq!(rt; master.left(), 32);
    for number in 0..32u8 {
        let frame = ping_said(&rt, alloc, &mut master, u64::from(number))?;
        assert_eq!(rt; ping_signed(&frame), Some((3, number)));
    }
    assert!(rt; ping_said(&rt, alloc, &mut master, 32)?.is_none());
    assert_eq!(rt; master.left(), 0);
    Ok(())
}
