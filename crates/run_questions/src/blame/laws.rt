ghost use Rattle.run_questions.specs.BlameLaws.{BlamedAreProved, QuorumsAreBlamed, CorrectAreNotBlamed};

/// Each pair that is printed for a legal history is two words of that master that its key bears out and that contradict
/// each other.
pub fn blamed_are_proved()
    ensures { BlamedAreProved }
{}

/// Where the frames taken hold two quorums' commits of different digests, for one number of a view, more than `f` masters
/// are named.
pub fn quorums_are_blamed()
    ensures { QuorumsAreBlamed }
{}

/// Each master that is named for a legal history in which no word counts as forged is an intruded one.
pub fn correct_are_not_blamed()
    ensures { CorrectAreNotBlamed }
{}
