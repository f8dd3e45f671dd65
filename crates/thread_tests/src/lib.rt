//! Tests of what threads share, stamps and inboxes, and of runs in threads: masters that wait for each other, turns in a stated
//! order, and hands side by side.
#![tactic(auto)]

#[cfg(test)]
mod abreast;
#[cfg(test)]
mod drawing;
#[cfg(test)]
mod handing;
#[cfg(test)]
mod in_turn;
#[cfg(test)]
mod meeting;
#[cfg(test)]
mod runs;
#[cfg(test)]
mod waiting;
