//! Tests of the parts of a master, each from words that it takes to what it says or runs: the global order of a group of four masters,
//! of whom three are a quorum, how a slow leader is measured and how a view changes among them.
#![tactic(auto)]

#[cfg(test)]
mod asks;
#[cfg(test)]
mod giving;
#[cfg(test)]
mod knowing;
#[cfg(test)]
mod matrices;
#[cfg(test)]
mod measures;
#[cfg(test)]
mod offers;
#[cfg(test)]
mod ordering;
#[cfg(test)]
mod owed;
#[cfg(test)]
mod reporting;
#[cfg(test)]
mod runs;
#[cfg(test)]
mod views;
#[cfg(test)]
mod words;
