//! The rules of the protocol as definitions, in `specs/`: which words a part may be, what is certified, ordered
//! and executed where a list of signed words is known, and what a correct master says. The crates that keep
//! running state are each proved equal to them.
#![tactic(auto)]

pub mod facts;
pub mod laws;
pub mod limits;
pub mod rows;

pub use facts::OrderFact;
pub use limits::{
    BEAT, BLIND_STEP, FIRST_PATIENCE, FIRST_SHARE, FORGIVEN_STEP, LONG_WAIT, MARK_STEP, MOST_BOUND,
    MOST_DOUBLINGS, MOST_NUMBER, MOST_NUMBERS_ASKED, MOST_REQUESTS_ASKED, MOST_TICKS, MOST_VIEW,
    SHARE_OF_EACH, SHARE_STEP, SHOWN_STEP, SLOW_BEAT, WINDOW,
};
pub use rows::rows_of;
