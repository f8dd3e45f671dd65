//! What holds beyond the calls.
ghost use Rattle.std.specs.Prelude.{◌≡◌};
ghost use Rattle.command_ends.specs.declared.limits.TheConstants.{MOST_KEPT_BYTES};
ghost use Rattle.stations.specs.declared.beginning.TheConstants.{MOST_KEPT};

/// A station keeps as many bytes as a merge reads.
pub fn what_is_kept_is_read()
    ensures { MOST_KEPT ≡ MOST_KEPT_BYTES }
{}
