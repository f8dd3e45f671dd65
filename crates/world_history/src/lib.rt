//! Histories at work: an actor of a scenario with all that it did, whose state is the replay of its list; an actor with its
//! keeper, which keeps each entry before its words are posted, and one made anew from what was kept; and a history as the
//! benches of its actors, replayed on new ones or merged from their lists. What is asked of a history's executions is asked of
//! its benches, so that nothing is replayed twice.
#![tactic(auto)]

mod addressing;
mod agreeing;
mod at_intruded;
mod at_master;
mod audited;
pub mod bench;
mod benches;
mod fitting;
mod frames;
mod halting;
mod keeping;
mod kept_actor;
pub mod laws;
mod merging;
mod own_keys;
mod reading;
mod replaying;
mod reviving;
mod ring;
mod role;
mod seat;
mod sharing;
mod shown;
mod speaking;
mod start;

pub use crate::benches::benches_of;
pub use crate::keeping::keep;
pub use crate::kept_actor::Kept;
pub use crate::reviving::revive;
pub use addressing::addressees;
pub use agreeing::{agree, agree_benches};
pub use bench::Bench;
pub use entry_texts::{read_entry, spell_entry};
pub use halting::{calls_at, fails, is_halted};
pub use history_audit::audit;
pub use merging::merge;
pub use play_words::{Input, Item, Ref, Word};
pub use reading::{cried, if_standing};
pub use replaying::{all_benches, replayed};
pub use ring::{held_ring, ring_of};
pub use world_entries::{Entry, Event, History};
