ghost use Rattle.std.specs.Prelude.{◌≡◌, ◌↔◌, IsTrue, IfOk};

use plain_lists::{Bytes, Copied, Same, Want};

/// A body with the number of the actor that signed it and its signature. The signature's bytes are shared
/// among copies.
#[derive(Drop)]
pub struct Signed<B: Drop> {
    pub signer: u32,
    pub body: B,
    pub sig: Bytes,
}

impl<B: Drop> Signed<B> {
    /// Another body under the same signer and signature, whose bytes are shared.
    pub fn with_body<C: Drop>(&self, body: C) -> Result<Signed<C>, Want>
        ensures { IfOk result (λ made. made ≡ record { signer = self.now.signer; body = body; sig = self.now.sig }) }
    {
        Ok(Signed {
            signer: self.signer,
            body,
            sig: self.sig.copy()?,
        })
    }
}

impl<B: Copied> Copied for Signed<B> {
    fn copy(&self) -> Result<Self, Want> {
        self.with_body(self.body.copy()?)
    }
}

impl<B: Same + Drop> Same for Signed<B> {
    fn is_same(&self, other: &Self) -> bool {
        self.signer == other.signer
            && self.body.is_same(&other.body)
            && self.sig.is_same(&other.sig)
    }
}
