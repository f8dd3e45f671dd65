//! Tests of what stands in bytes and in typed lines: frames, entries, parts, scripts, what intruded masters say, histories as they are
//! audited, and commands, from the program's words to its status, its line and what it puts. Nothing is played here.
#![tactic(auto)]

#[cfg(test)]
mod audits;
#[cfg(test)]
mod commands;
#[cfg(test)]
mod entries;
#[cfg(test)]
mod forms;
#[cfg(test)]
mod none_played;
#[cfg(test)]
mod overheard;
#[cfg(test)]
mod parities;
#[cfg(test)]
mod scripts;
#[cfg(test)]
mod typed;
