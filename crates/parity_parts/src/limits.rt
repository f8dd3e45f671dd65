//! How long a text may be. (This project's own limit.)

/// No text of more bytes is put into parts, or rebuilt from them.
pub const MOST_TEXT_BYTES: u64 = 65_536;
