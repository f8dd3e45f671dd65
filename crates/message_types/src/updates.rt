ghost use Rattle.std.specs.Prelude.{◌≡◌, ◌↔◌, IsTrue};

use plain_lists::Same;

/// What a client asks for: a proxy tells a point's value, an operator sets one or acknowledges an alarm.
#[derive(Clone, Copy, Debug, PartialEq, Eq)]
pub enum Op {
    Reading { point: u32, value: i64 },
    Set { point: u32, value: i64 },
    Ack { alarm: u32 },
}

/// Number `t` of the updates of a client, from 1.
#[derive(Clone, Copy, Debug, PartialEq, Eq)]
pub struct Update {
    pub client: u32,
    pub t: u64,
    pub op: Op,
}

impl Same for Update {
    fn is_same(&self, other: &Self) -> bool {
        *self == *other
    }
}
