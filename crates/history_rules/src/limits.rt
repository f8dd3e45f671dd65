/// No more bodies of one entry than this share a leaf.
pub const MOST_SHARING: u16 = 32;
