//! Alarms over measured points: when each is raised and cleared, and which are acknowledged.
#![tactic(auto)]

pub mod alarm;
pub mod alarms;

pub use alarm::{AlarmKind, AlarmRule};
pub use alarms::{Alarms, Change, NoAlarm};
