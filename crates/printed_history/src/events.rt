//! The event that a line tells.
ghost use Rattle.std.specs.Prelude.{◌≡◌, IfOk};
ghost use Rattle.run_lines.specs.declared.event_line.EventLine.TheVariants as line;
ghost use Rattle.printed_history.specs.Histories.{event_from, standing_event};
ghost use Rattle.printed_history.specs.Reading.{IsSoFar, event_found, world_in};

use crate::frames::standing;
use crate::reading::SoFar;
use checked_frames::RingMemory;
use plain_lists::{Copied, Want};
use run_lines::EventLine;
use world_entries::Event;

/// The place of a frame that is told by its bytes, which no body has.
const NO_PLACE: u32 = 4_294_967_295;

impl SoFar<'_> {
    /// The event of a line, if the frame that it takes is there and stands.
    pub(crate) fn event(
        &self,
        memory: &mut RingMemory,
        line: EventLine,
    ) -> Result<Option<Event>, Want>
        requires { IsSoFar self.now }
        ensures { IfOk result (λ found. event_found found ≡ standing_event (world_in self.now) (event_from (world_in self.now) self.now.history line)) }
    {
        match line {
            EventLine::Said { stamp, place } => self.said(stamp, place),
            EventLine::Frame { bytes } => self.told(memory, bytes.as_slice()),
            EventLine::Tick => Ok(Some(Event::Tick)),
            EventLine::Command { op } => Ok(Some(Event::Command { op })),
            EventLine::Field { area, place, value } => Ok(Some(Event::Field {
                area,
                place,
                value,
            })),
            EventLine::Poll => Ok(Some(Event::Poll)),
            EventLine::Cry { bytes } => Ok(Some(Event::Cry { bytes })),
            EventLine::Skip => Ok(Some(Event::Skip)),
            EventLine::Restart => Ok(Some(Event::Restart)),
        }
    }

    /// The frame that was said at this stamp and place, as it is taken.
    fn said(&self, stamp: u64, place: u32) -> Result<Option<Event>, Want>
        requires { IsSoFar self.now }
        ensures { IfOk result (λ found. event_found found ≡ standing_event (world_in self.now) (event_from (world_in self.now) self.now.history (line.Said stamp place))) }
    {
        let Some(frames) = self.posted.get(stamp as usize) else {
            return Ok(None);
        };
        let Some(frame) = frames.get(place as usize) else {
            return Ok(None);
        };
        let frame = frame.copy()?;
        Ok(Some(Event::Took {
            stamp,
            place,
            frame,
        }))
    }

    /// The frame that bytes spell, as it is taken.
    fn told(&self, memory: &mut RingMemory, bytes: &[u8]) -> Result<Option<Event>, Want>
        requires { IsSoFar self.now }
        ensures { IfOk result (λ found. event_found found ≡ standing_event (world_in self.now) (event_from (world_in self.now) self.now.history (line.Frame bytes.now))) }
    {
        let entries = self.history.len() as u64;
        if entries == 0 {
            return Ok(None);
        }
        let found = standing(self.alloc, &self.ring, memory, bytes)?;
        let Some(frame) = found else {
            return Ok(None);
        };
        Ok(Some(Event::Took {
            stamp: entries - 1,
            place: NO_PLACE,
            frame,
        }))
    }
}
