//! What holds of each history that a script and words define. A function that does nothing has a law as its contract.
ghost use Rattle.run_scripts.specs.Laws.{PlayedIsLegal, PlayedIsUnforged};

/// The history is legal and has at most 50,000 entries.
pub fn played_is_legal()
    ensures { PlayedIsLegal }
{}

/// Where no word is raw bytes, nothing in the history is forged.
pub fn played_is_unforged()
    ensures { PlayedIsUnforged }
{}
