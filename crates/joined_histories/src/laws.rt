ghost use Rattle.joined_histories.specs.Laws.{FilesAreTold, NothingEarlyWhereThatCanBe, NothingForgedWhereThatCanBe};

/// Where any order of the lists takes nothing before it is said, the order of `join` does so.
pub fn nothing_early_where_that_can_be()
    ensures { NothingEarlyWhereThatCanBe }
{}

/// Where in any order no word counts as forged, none does in that of `join`.
pub fn nothing_forged_where_that_can_be()
    ensures { NothingForgedWhereThatCanBe }
{}

/// The lists that are read of files are those that the files tell, whatever the files' order.
pub fn files_are_told()
    ensures { FilesAreTold }
{}
