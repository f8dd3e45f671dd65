//! The words that masters, proxies and screens sign, as types, with the digests that words bear and the parts of a frame:
//! itself and all frames inside it. `specs/Texts.antt` says which bytes spell words, `specs/Spelling.antt` which of them
//! have a spelling, `specs/Digests.antt` what their digests are, and `specs/Parts.antt` which frames are inside them.
#![tactic(auto)]

pub mod body;
mod digests;
pub mod laws;
pub mod limits;
pub mod measures;
pub mod ordering;
pub mod parts;
pub mod preordering;
pub mod reconciling;
pub mod signed;
pub mod updates;
pub mod views;
pub mod vouchers;

pub use body::{Body, Frame};
pub use digests::{rows_digest, update_digest};
pub use limits::{MOST_BODY_BYTES, MOST_CERTIFICATES, MOST_LISTED, MOST_SIGNATURE_BYTES};
pub use measures::{Ping, Pong, Rtt, Suspect, TatBound, TatReport};
pub use ordering::{Certificate, Commit, FrameList, Mark, PrePrepare, Prepare, Rows};
pub use parts::{parts_of, put_inside};
pub use preordering::{PoAck, PoRequest, PoSummary};
pub use reconciling::{AskOrder, AskUpdate, Give, GiveOrdered};
pub use signed::Signed;
pub use updates::{Op, Update};
pub use views::{NewView, Plan, Report};
pub use vouchers::{Notice, NoticeKind, Order, Voucher};
