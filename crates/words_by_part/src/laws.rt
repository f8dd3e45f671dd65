ghost use Rattle.words_by_part.specs.Laws.{AnswersByPart, AnswersByLivePart, OwnWordsTell};

/// Of all that a master says at an event by the rules first specified, the words of each part's kinds are those that are due by its rules, in
/// their order.
pub fn answers_by_part()
    ensures { AnswersByPart }
{}

/// The same by the rules that stay alive.
pub fn answers_by_live_part()
    ensures { AnswersByLivePart }
{}

/// What each part asks of the words said, its own kinds alone answer.
pub fn own_words_tell()
    ensures { OwnWordsTell }
{}
