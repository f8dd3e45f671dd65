ghost use Rattle.command_ends.specs.Ended.{sink_of, Told, refusal_without};

use crate::refusal::Refusal;
use crate::report::report;
use outside::Sink;
use std::alloc::Global;
use thiserror::Error;

/// Why the program has no words to call `spire` with.
#[derive(Clone, Copy, Debug, PartialEq, Eq, Error)]
pub enum WordsRefusal {
    /// The system gives a word that is no text.
    #[error("not text")]
    NotText,
    #[error("want of memory")]
    Want,
}

/// Ends a program that has no words as `spire` would: with status 2 as for words that aren't a command, with 7 for want of
/// memory, the line of either put to `err`.
pub fn spire_without_words<E: Sink>(alloc: Global, why: WordsRefusal, err: &mut E) -> u8
    ensures { Told (refusal_without why) (sink_of (E.faults err.old) (E.faults err.new) (E.told err.old) (E.told err.new)) result }
{
    match why {
        WordsRefusal::NotText => report(alloc, &Refusal::Usage, err),
        WordsRefusal::Want => report(alloc, &Refusal::Memory, err),
    }
}
