//! How often each answer was given.
use anyhow::Result;
use std::alloc::Global;

/// How often answers had this first word.
#[derive(Drop)]
struct Tally {
    word: String,
    count: u64,
}

/// The answers by their first words, in the order in which these came.
#[derive(Drop)]
pub struct Counts {
    alloc: Global,
    tallies: Vec<Tally>,
}

impl Counts {
    pub fn new(alloc: Global) -> Counts {
        Counts {
            alloc,
            tallies: Vec::new(alloc),
        }
    }

    pub fn add(&mut self, answer: &str) -> Result<()> {
        let word = answer.split(' ').next().unwrap_or("");
        for tally in self.tallies.iter_mut() {
            if tally.word.as_str() == word {
                tally.count = tally.count.wrapping_add(1);
                return Ok(());
            }
        }
        let word = String::from_str(self.alloc, word)?;
        self.tallies.push(Tally { word, count: 1 })?;
        Ok(())
    }

    /// Prints a line for each answer.
    pub fn print(&self, rt: &(impl Print + AllocGlobal), reader: &str) -> Result<()> {
        for tally in &self.tallies {
            let word = tally.word.as_str();
            let count = tally.count;
            println!(rt; "{reader} {word} {count}")?;
        }
        Ok(())
    }
}
