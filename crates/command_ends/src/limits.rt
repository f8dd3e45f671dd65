//! How many bytes a file may have. (This project's own limits.)

/// Files may have this many bytes, but for those that stations kept.
pub const MOST_BYTES: u64 = 16_777_216;

/// A file that a station kept may have this many: as many as a station keeps.
pub const MOST_KEPT_BYTES: u64 = 4_294_967_295;
