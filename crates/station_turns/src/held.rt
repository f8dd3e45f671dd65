ghost use Rattle.std.specs.Prelude.{◌≡◌, Some};
ghost use Rattle.world_entries.specs.Entries.{event_of};
ghost use Rattle.station_turns.specs.Turns.{taking, still_held};

use checked_frames::Checked;
use message_types::Frame;
use plain_lists::Vector;
use world_entries::Event;

/// A frame that was taken from an inbox and stands, said at this stamp as body number `place` of its entry, from 0.
pub struct Held {
    pub stamp: u64,
    pub place: u32,
    pub frame: Checked,
}

// Taken apart here once, so that no crate above proves it again.
impl Drop for Held {
    fn drop(self) {
        let Held {
            stamp: _,
            place: _,
            frame: _,
        } = self;
    }
}

impl Held {
    fn into_event(self) -> Event
        ensures { event_of result ≡ taking (Some self) }
    {
        let Held {
            stamp,
            place,
            frame,
        } = self;
        Event::Took {
            stamp,
            place,
            frame,
        }
    }
}

/// The event of a held frame; of none a tick.
pub(crate) fn taking(held: Option<Held>) -> Event
    ensures { event_of result ≡ taking held }
{
    match held {
        Some(held) => held.into_event(),
        None => Event::Tick,
    }
}

/// The held frame at a stamp: it is dropped where that isn't above its own.
pub(crate) fn still_held(held: Option<Held>, stamp: u64) -> Option<Held>
    ensures { result ≡ still_held held stamp }
{
    match held {
        Some(held) => { if held.stamp < stamp { Some(held) } else { None } }
        None => None,
    }
}

/// What a turn gives to post: frames, and the stamp at which they were said.
pub struct Turned {
    pub stamp: u64,
    pub frames: Vec<Frame>,
    /// Whether a word was cried that spells a frame. Its frame goes to the actors of `to`, even if there are none; each frame of
    /// another turn goes where its body does.
    pub cried: bool,
    /// The numbers of the actors that a word goes to.
    pub to: Vector,
    /// The held frame, if it was neither taken nor dropped.
    pub held: Option<Held>,
}

// Taken apart here once, so that no crate above proves it again.
impl Drop for Turned {
    fn drop(self) {
        let Turned {
            stamp: _,
            frames: _,
            cried: _,
            to: _,
            held: _,
        } = self;
    }
}
