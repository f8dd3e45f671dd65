ghost use Rattle.std.specs.Prelude.{◌≡◌, [], Some, OnOk, OnErr, IfOk};
ghost use Rattle.message_types.specs.declared.body.Body.TheVariants as body;
ghost use Rattle.message_types.specs.Parts.{as_frame};
ghost use Rattle.protocol_rules.specs.Group.{Group};
ghost use Rattle.protocol_rules.specs.Preorder.{certified};
ghost use Rattle.reconcile.specs.GiftState.{AreGiftsOf, Learns, Where};
ghost use Rattle.reconcile.specs.Giving.{gift_of};

use crate::acks::{Acks, lowest_acks};
use indexmap::IndexMap;
use message_types::{Give, PoAck, PoRequest, Signed, Update, update_digest};
use plain_lists::{Copied, Want};
use quorum_sets::Sizes;
use std::alloc::Global;
use std::marker::Model;

/// The first request of each master, number and digest.
type Requests = IndexMap<(u32, u64, [u8; 32]), Signed<PoRequest>>;

/// The requests and acknowledgements that a master knows, from which it makes its gifts.
pub struct Gifts {
    alloc: Global,
    sizes: Sizes,
    requests: Requests,
    acks: Acks,
}

// Taken apart here once, so that no crate above proves it again.
impl Drop for Gifts {
    fn drop(self) {
        let Gifts {
            alloc: _,
            sizes: _,
            requests: _,
            acks: _,
        } = self;
    }
}

impl Model for Gifts {
    ghost use Rattle.reconcile.specs.GiftState.{GiftState};

    ghost Value = { GiftState };

    ghost view = { λ a. record { masters = a.sizes.n; quorum = a.sizes.q; requests = a.requests.entries; acks = a.acks.entries } };
}

impl Gifts {
    /// The gifts of a master that knows no word.
    pub fn new(alloc: Global, sizes: Sizes) -> Gifts
        ensures { (g : Group) → sizes.n ≡ g.n → sizes.q ≡ g.q → AreGiftsOf g result [] }
    {
        Gifts {
            alloc,
            sizes,
            requests: IndexMap::new(alloc),
            acks: IndexMap::new(alloc),
        }
    }

    /// Takes the next request known. The first of a number and digest stays.
    pub fn take_request(&mut self, frame: &Signed<PoRequest>) -> Result<(), Want>
        ensures ok { OnOk result (Learns self.old self.new (as_frame body.PoRequest frame.now)) }
        ensures err { OnErr result (self.new ≡ self.old) }
    {
        let digest = update_digest(&frame.body.update.body);
        let key = (frame.signer, frame.body.k, digest);
        if self.requests.contains_key(&key) {
            return Ok(());
        }
        self.requests.insert(key, frame.copy()?)?;
        Ok(())
    }

    /// Takes the next acknowledgement known. The first of a master for a number and digest stays.
    pub fn take_ack(&mut self, frame: &Signed<PoAck>) -> Result<(), Want>
        ensures ok { OnOk result (Learns self.old self.new (as_frame body.PoAck frame.now)) }
        ensures err { OnErr result (self.new ≡ self.old) }
    {
        let ack = frame.body;
        let key = (ack.j, ack.k, ack.digest, frame.signer);
        if self.acks.contains_key(&key) {
            return Ok(());
        }
        self.acks.insert(key, frame.sig.copy()?)?;
        Ok(())
    }

    /// The gift of number `k` of master `j`, where this update is certified as that.
    pub fn give(&self, j: u32, k: u64, update: &Update) -> Result<Option<Give>, Want>
        ensures { IfOk result (λ gift. Where self.now (λ g known.
            certified g known j k ≡ Some update.now → gift ≡ gift_of g known j k update.now)) }
    {
        let digest = update_digest(update);
        let Some(first) = self.requests.get(&(j, k, digest)) else {
            return Ok(None);
        };
        let request = first.copy()?;
        let acks = lowest_acks(self.alloc, &self.acks, &self.sizes, j, k, digest)?;
        Ok(Some(Give { request, acks }))
    }
}
