//! The keys of one who has its own alone.
use plain_lists::{Copied, Items, Want};

/// The public keys of all actors of a scenario, and of what one actor's own key is made. Who has these needs no seed of the
/// scenario.
pub struct HeldKeys {
    /// Each actor's public key, in the order of their numbers (RFC 8554, section 6.1).
    pub ring: Items<[u8; 60]>,
    /// The seed of the own key (RFC 8554, appendix A).
    pub seed: [u8; 32],
    /// Its identifier (RFC 8554, section 5.1).
    pub identifier: [u8; 16],
}

// Taken apart here once, so that no crate above proves it again.
impl Drop for HeldKeys {
    fn drop(self) {
        let HeldKeys {
            ring: _,
            seed: _,
            identifier: _,
        } = self;
    }
}

impl Copied for HeldKeys {
    fn copy(&self) -> Result<Self, Want> {
        Ok(HeldKeys {
            ring: self.ring.copy()?,
            seed: self.seed,
            identifier: self.identifier,
        })
    }
}
