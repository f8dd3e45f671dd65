ghost use Rattle.words_in_place.specs.Laws.{KnownIsClosed, PartsAreClosed, RowsAreInPlace, OrderedAreInPlace, OfferedAreInPlace, PlansAreInPlace, AnswersAreInPlace, OwnPartsAreInPlace, KnownStaysInPlace, LearnedIsInPlace};
ghost use Rattle.words_in_place.specs.Signing.{LearnedIsSpelled, LearnedIsSigned, SaidFramesStand};
ghost use Rattle.words_in_place.specs.Spellings.{RowsInPlaceFit, NewViewsFit, CertifiedAreInPlace, PartsAreSpelled, AnswersAreSpelled, OwnPartsAreSpelled, OwnFramesStand};

/// With each word that a master knows it knows the frames inside it.
pub fn known_is_closed()
    ensures { KnownIsClosed }
{}

/// With each part of some frames the frames inside it are parts of theirs.
pub fn parts_are_closed()
    ensures { PartsAreClosed }
{}

/// Rows known are rows of the group: one for each master, each empty or of one number for each master.
pub fn rows_are_in_place()
    ensures { RowsAreInPlace }
{}

/// Ordered rows are rows of the group.
pub fn ordered_are_in_place()
    ensures { OrderedAreInPlace }
{}

/// What a view offers are rows of the group, as a number from 1 to 4,096.
pub fn offered_are_in_place()
    ensures { OfferedAreInPlace }
{}

/// A known plan has rows of the group, and goes up to 4,096 at most.
pub fn plans_are_in_place()
    ensures { PlansAreInPlace }
{}

/// Each word that a correct master says is in its place, where all that it knows is.
pub fn answers_are_in_place()
    ensures { AnswersAreInPlace }
{}

/// Each part of the frames that it says is in its place: the frames, and those inside them.
pub fn own_parts_are_in_place()
    ensures { OwnPartsAreInPlace }
{}

/// All that a master knows stays in place when its own frames join it.
pub fn known_stays_in_place()
    ensures { KnownStaysInPlace }
{}

/// In every legal history all that a correct master has learned is in place.
pub fn learned_is_in_place()
    ensures { LearnedIsInPlace }
{}

/// Rows of a group fit their spelling.
pub fn rows_in_place_fit()
    ensures { RowsInPlaceFit }
{}

/// The rows of the certificates that a new view with a spelling brings fit theirs.
pub fn new_views_fit()
    ensures { NewViewsFit }
{}

/// What is certified is an update in its place in its client's name.
pub fn certified_are_in_place()
    ensures { CertifiedAreInPlace }
{}

/// Each part of frames with spellings has one.
pub fn parts_are_spelled()
    ensures { PartsAreSpelled }
{}

/// Each word that a correct master says fits its spelling, where all that it knows has one.
pub fn answers_are_spelled()
    ensures { AnswersAreSpelled }
{}

/// Each part of the frames that it says has a spelling.
pub fn own_parts_are_spelled()
    ensures { OwnPartsAreSpelled }
{}

/// The frames that it says stand once they are signed, where all that it knows is signed.
pub fn own_frames_stand()
    ensures { OwnFramesStand }
{}

/// In every legal history whose setup's signatures sign, all that a correct master has learned has a spelling.
pub fn learned_is_spelled()
    ensures { LearnedIsSpelled }
{}

/// All of it is signed.
pub fn learned_is_signed()
    ensures { LearnedIsSigned }
{}

/// The frames of what it says stand.
pub fn said_frames_stand()
    ensures { SaidFramesStand }
{}
