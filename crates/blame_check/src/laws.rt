ghost use Rattle.blame_check.specs.Laws.{NamedContradict, NamedStand, ContraryAreNamed, QuorumsNameMany, CorrectAreNotNamed};

/// Each pair named for a legal history is two words of that master that verify under its key and contradict each other.
pub fn named_contradict()
    ensures { NamedContradict }
{}

/// Of words that stand in a ring, both words of each pair that is named stand in it: they are that master's, signed by the key that
/// the ring has for it, and in their place.
pub fn named_stand()
    ensures { NamedStand }
{}

/// Each master that signed two words that contradict each other is named, wherever among those taken the two stand.
pub fn contrary_are_named()
    ensures { ContraryAreNamed }
{}

/// Where two quorums committed different digests as one number of a view, more than `f` masters are named.
pub fn quorums_name_many()
    ensures { QuorumsNameMany }
{}

/// No correct master is named for a legal history in which no word is forged.
pub fn correct_are_not_named()
    ensures { CorrectAreNotNamed }
{}
