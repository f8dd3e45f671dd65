//! The page that shows a run: the text around three texts, which come into it escaped.
#![tactic(auto)]

mod around;
mod escaping;
pub mod laws;
mod part;
mod script;
mod writing;

pub use escaping::put_escaped;
pub use writing::page_of;
