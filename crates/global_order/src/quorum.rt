/// A quorum of votes for the rows of a digest as number `s` in view `v`.
#[derive(Clone, Copy)]
pub struct Quorum {
    pub v: u64,
    pub s: u64,
    pub digest: [u8; 32],
}
