ghost use Rattle.history_laws.specs.Counts.{SameBodies, ForgedCounts, AlikeCounts, SoundByCounts, MergedWhole, OwnOfMerged};

/// The test of bodies part by part decides whether they are equal.
pub fn same_bodies()
    ensures { SameBodies }
{}

/// No word counts as forged exactly where nothing is forged.
pub fn forged_counts()
    ensures { ForgedCounts }
{}

/// No text counts as alike exactly where no two different texts share a digest.
pub fn alike_counts()
    ensures { AlikeCounts }
{}

/// A legal history of a group whose three counts are in order meets all premises of the laws of agreement.
pub fn sound_by_counts()
    ensures { SoundByCounts }
{}

/// The actors' own lists of a legal history make that history again.
pub fn merged_whole()
    ensures { MergedWhole }
{}

/// Lists of actors that are merged stay the actors' own lists.
pub fn own_of_merged()
    ensures { OwnOfMerged }
{}
