//! The one spelling of each signed word: `write_frame` and `read_frame`, and the texts and digests of bodies,
//! updates and rows. All formats are this project's own; `message_types` says which bytes spell a word.
#![tactic(auto)]

mod batch;
mod form_reader;
mod inner;
pub mod laws;
mod pieces;
mod read;
mod refusal;
mod words;
mod write;
mod written;

pub use crate::batch::batch_text;
pub use crate::read::read_frame;
pub use crate::refusal::FormRefusal;
pub use crate::write::{text_of, word_text, write_frame};
pub use crate::written::Written;
pub use message_types::{
    AskOrder, AskUpdate, Body, Certificate, Commit, Frame, FrameList, Give, GiveOrdered, Mark,
    NewView, Notice, NoticeKind, Op, Order, Ping, Plan, PoAck, PoRequest, PoSummary, Pong,
    PrePrepare, Prepare, Report, Rows, Rtt, Signed, Suspect, TatBound, TatReport, Update, Voucher,
    rows_digest, update_digest,
};
pub use plain_lists::Want;
