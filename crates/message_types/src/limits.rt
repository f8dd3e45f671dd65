/// No list of frames, of rows or of a row's numbers has more items: one for each master that there can be. (As many as
/// `MOST_MASTERS` of `quorum_sets`, by a law of each.)
pub const MOST_LISTED: u16 = 14;

/// A report has no more certificates: one for each number above the stable one that may be offered.
pub const MOST_CERTIFICATES: u16 = 16;

/// No signature has more bytes.
pub const MOST_SIGNATURE_BYTES: u32 = 65_536;

/// No body has more bytes, nor has a frame.
pub const MOST_BODY_BYTES: u32 = 1_073_741_824;
