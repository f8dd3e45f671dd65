//! What a correct master hears and says along its own list of entries. Each function does nothing: its contract is a law.
ghost use Rattle.bench_rules.specs.Laws.{FewTicks, MasterFramesStand, MasterWordsFit, SilentSaysNothing, HeardNext, HeardSame};

/// A master has no more ticks than entries.
pub fn few_ticks()
    ensures { FewTicks }
{}

/// The frames that a correct master says stand.
pub fn master_frames_stand()
    ensures { MasterFramesStand }
{}

/// What a correct master says has a spelling.
pub fn master_words_fit()
    ensures { MasterWordsFit }
{}

/// At a silent event a correct master says nothing.
pub fn silent_says_nothing()
    ensures { SilentSaysNothing }
{}

/// An entry that isn't silent adds one event to what its master heard.
pub fn heard_next()
    ensures { HeardNext }
{}

/// A silent entry adds none.
pub fn heard_same()
    ensures { HeardSame }
{}
