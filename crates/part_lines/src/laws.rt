//! What holds of texts of parts beyond the calls.
ghost use Rattle.part_lines.specs.Laws.{EnoughLinesRebuild, PrintedPartsAreRead};

/// A digest and parts that are printed are read again.
pub fn printed_parts_are_read()
    ensures { PrintedPartsAreRead }
{}

/// From f + 1 lines of a text's parts a text of the digest is rebuilt, whatever the other lines of the text of parts are.
pub fn enough_lines_rebuild()
    ensures { EnoughLinesRebuild }
{}
