//! What holds of the text of parts of a request.
ghost use Rattle.run_questions.specs.PartsLaws.{CertifiedHaveOwnDigests, PartsArePrinted, PrintedLinesRebuild};

/// What is printed for a request in a history is its digest and parts of texts of that digest, and is read again.
pub fn parts_are_printed()
    ensures { PartsArePrinted }
{}

/// From any f + 1 of the lines that are printed for a request of a history a text of the printed digest is rebuilt, whatever
/// the other lines are, where no two updates certified as that request have one digest.
pub fn printed_lines_rebuild()
    ensures { PrintedLinesRebuild }
{}

/// No two updates certified as one request of a legal history have one digest, while at most f masters are intruded, no word is
/// forged and no digest is shared.
pub fn certified_have_own_digests()
    ensures { CertifiedHaveOwnDigests }
{}
