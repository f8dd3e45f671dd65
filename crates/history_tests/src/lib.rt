//! Tests of histories at work: benches, actors with their keepers, what an intruded master is made to say, and plays: where a
//! script stops, what masters say at its end, what a restart posts again, keys that are spent, and stations.
#![tactic(auto)]

#[cfg(test)]
mod asking;
#[cfg(test)]
mod benches;
#[cfg(test)]
mod by_hand;
#[cfg(test)]
mod common;
#[cfg(test)]
mod kept;
#[cfg(test)]
mod kept_and_told;
#[cfg(test)]
mod plays;
#[cfg(test)]
mod scripts;
#[cfg(test)]
mod spent;
#[cfg(test)]
mod taking_over;
