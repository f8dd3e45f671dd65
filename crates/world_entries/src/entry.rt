ghost use Rattle.std.specs.Prelude.{◌≡◌, IfOk};

use checked_frames::Checked;
use message_types::{Body, Op};
use plain_lists::{Bytes, Copied, Items, Want};
use point_table::Area;

/// One event of an actor.
#[derive(Drop)]
pub enum Event {
    /// A frame that stands, said at this stamp as body number `place` of its entry, from 0.
    Took {
        stamp: u64,
        place: u32,
        frame: Checked,
    },
    Tick,
    /// An operator's command at a screen.
    Command {
        op: Op,
    },
    /// A change in a proxy's field: the place of the area holds this value from now on.
    Field {
        area: Area,
        place: u16,
        value: u16,
    },
    /// A proxy reads its points.
    Poll,
    /// Bytes of an intruded master, whatever they are.
    Cry {
        bytes: Bytes,
    },
    /// A stamp that was drawn and not used.
    Skip,
    /// The actor is made anew from what was kept.
    Restart,
}

impl Copied for Event {
    fn copy(&self) -> Result<Self, Want> {
        match self {
            Event::Took {
                stamp,
                place,
                frame,
            } => Ok(Event::Took {
                stamp: *stamp,
                place: *place,
                frame: frame.copy()?,
            }),
            Event::Tick => Ok(Event::Tick),
            Event::Command { op } => Ok(Event::Command { op: *op }),
            Event::Field { area, place, value } => Ok(Event::Field {
                area: *area,
                place: *place,
                value: *value,
            }),
            Event::Poll => Ok(Event::Poll),
            Event::Cry { bytes } => Ok(Event::Cry {
                bytes: bytes.copy()?,
            }),
            Event::Skip => Ok(Event::Skip),
            Event::Restart => Ok(Event::Restart),
        }
    }
}

/// An event of an actor with the stamp that it has in its history and the bodies that the actor said at it.
#[derive(Drop)]
pub struct Entry {
    pub stamp: u64,
    pub actor: u32,
    pub event: Event,
    pub said: Items<Body>,
}

impl Copied for Entry {
    fn copy(&self) -> Result<Self, Want> {
        Ok(Entry {
            stamp: self.stamp,
            actor: self.actor,
            event: self.event.copy()?,
            said: self.said.copy()?,
        })
    }
}
