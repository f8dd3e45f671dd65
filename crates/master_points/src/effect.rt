use message_types::Order;
use plain_lists::Items;

/// An order and the client that it is for.
#[derive(Clone, Copy, PartialEq, Eq)]
pub struct Addressed {
    pub client: u32,
    pub order: Order,
}

/// What an update changes in the state.
#[derive(Clone, Copy, PartialEq, Eq)]
pub enum Step {
    Keep,
    Read { point: u32, value: i64 },
    Acknowledge { alarm: u32 },
}

/// What an update does: the orders that it gives, in order, and what it changes.
#[derive(Drop)]
pub struct Effect {
    pub orders: Items<Addressed>,
    pub step: Step,
}

/// What becomes of a screen's command to set a point.
#[derive(Clone, Copy, PartialEq, Eq)]
pub enum Verdict {
    NoPoint,
    NotWritable,
    OutOfRange,
    Denied { interlock: u32 },
    Write { proxy: u32, raw: u16 },
}
