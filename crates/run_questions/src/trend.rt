//! A point's changes among the executions of a history, as more than f correct masters answer them alike.
//! `specs/TrendAnswers.antt` says which answer that is, `specs/TrendLaws.antt` what it comes to.

mod counting;
mod fault;
pub mod laws;
mod question;
mod shown;
mod text;
mod votes;

pub use fault::TrendRefusal;
pub use shown::trend_text;
