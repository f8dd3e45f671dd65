ghost use Rattle.script_laws.specs.Laws.{ReadLinesAreOfScenario, ReadWordsAreOfScenario};

/// Whom the lines of a script name that was read for a scenario are there, and each event is one of its actor's role.
pub fn read_lines_are_of_scenario()
    ensures { ReadLinesAreOfScenario }
{}

/// Each word of a file that was read for a scenario can be said, and those to whom it goes are there.
pub fn read_words_are_of_scenario()
    ensures { ReadWordsAreOfScenario }
{}
