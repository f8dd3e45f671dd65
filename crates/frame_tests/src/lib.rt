//! Tests of what all words stand on, through public calls alone: lists, sizes and voters, fields in bytes, files, sinks and keepers,
//! words and their digests; frames as bytes, written here by hand after `docs/FORMATS.md`; one-time keys, trees and keys of several
//! levels against values of another program; and who is named for signed words that contradict.
#![tactic(auto)]

#[cfg(test)]
mod actors;
#[cfg(test)]
mod altered;
#[cfg(test)]
mod bytes;
#[cfg(test)]
mod digests;
#[cfg(test)]
mod fields;
#[cfg(test)]
mod groups;
#[cfg(test)]
mod keepers;
#[cfg(test)]
mod levels;
#[cfg(test)]
mod lists;
#[cfg(test)]
mod naming;
#[cfg(test)]
mod one_time;
#[cfg(test)]
mod real;
#[cfg(test)]
mod sinks;
#[cfg(test)]
mod sizes;
#[cfg(test)]
mod standing;
#[cfg(test)]
mod trees;
#[cfg(test)]
mod words;
