//! The lines of a printed run, written and read. What stands in `specs/Texts.antt` is written, and of a whole text the lines
//! of its history are read by `specs/Reading.antt` and `specs/Runs.antt`.
#![tactic(auto)]

mod actors;
mod entries;
mod entry_line;
mod event_line;
mod heads;
mod names;
mod refusal;
mod runs;

pub use actors::{put_actor, put_client, put_hex};
pub use entries::put_entry;
pub use entry_line::{EntryLine, read_entry_line};
pub use event_line::{EventLine, read_event};
pub use heads::{
    put_agree, put_audit, put_count, put_execution, put_intruded, put_master, put_notice,
    put_proxy, put_screen, put_write,
};
pub use names::{area_name, area_named, kind_of, notice_name};
pub use refusal::HistoryRefusal;
pub use runs::{first_line, read_run};
