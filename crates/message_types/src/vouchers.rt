ghost use Rattle.std.specs.Prelude.{◌≡◌, ◌↔◌, IsTrue};

use plain_lists::Same;

/// What a notice on a screen tells.
#[derive(Clone, Copy, Debug, PartialEq, Eq)]
pub enum NoticeKind {
    Done,
    Denied,
    NoPoint,
    OutOfRange,
    NotWritable,
    NoAlarm,
    Raised,
    Cleared,
    WrongPart,
}

/// A line for a screen: the command `t` that it answers (0 for an alarm's change) and the interlock, point or alarm that it names.
#[derive(Clone, Copy, Debug, PartialEq, Eq)]
pub struct Notice {
    pub what: NoticeKind,
    pub t: u64,
    pub number: u32,
}

impl Same for Notice {
    fn is_same(&self, other: &Self) -> bool {
        *self == *other
    }
}

/// What a master orders from a client: a proxy writes a raw value to a point, a screen shows a notice.
#[derive(Clone, Copy, Debug, PartialEq, Eq)]
pub enum Order {
    Write { point: u32, raw: u16 },
    Notice(Notice),
}

impl Same for Order {
    fn is_same(&self, other: &Self) -> bool {
        *self == *other
    }
}

/// A master vouches for order number `number` of a client, from 1.
#[derive(Clone, Copy, PartialEq, Eq)]
pub struct Voucher {
    pub client: u32,
    pub number: u64,
    pub order: Order,
}

impl Same for Voucher {
    fn is_same(&self, other: &Self) -> bool {
        *self == *other
    }
}
