use crate::words::Word;
use message_types::Op;
use plain_lists::{Copied, Vector, Want};
use point_table::Area;

/// What an actor is given from outside: an event of its role, or a word that an intruded master says to these actors.
#[derive(Drop)]
pub enum Input {
    Command { op: Op },
    Field { area: Area, place: u16, value: u16 },
    Poll,
    /// The addressees are actors' numbers, rising.
    Say { to: Vector, word: Word },
    Restart,
}

impl Copied for Input {
    fn copy(&self) -> Result<Self, Want> {
        Ok(match self {
            Input::Command { op } => Input::Command { op: *op },
            Input::Field { area, place, value } => Input::Field {
                area: *area,
                place: *place,
                value: *value,
            },
            Input::Poll => Input::Poll,
            Input::Say { to, word } => Input::Say {
                to: to.copy()?,
                word: word.copy()?,
            },
            Input::Restart => Input::Restart,
        })
    }
}
