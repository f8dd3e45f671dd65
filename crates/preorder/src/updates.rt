ghost use Rattle.std.specs.Prelude.{◌≡◌, ◌<◌, ◌^◌, ◌++◌, ◌∷◌, [], List, OnOk, OnErr};
ghost use Rattle.indexmap.specs.IndexMap.{IsUnchanged};
ghost use Rattle.message_types.specs.declared.signed.Signed.{Signed as SignedWord};
ghost use Rattle.message_types.specs.declared.body.Body.{Body as Word};
ghost use Rattle.message_types.specs.declared.body.Body.TheVariants as body;
ghost use Rattle.message_types.specs.Parts.{as_frame};
ghost use Rattle.preorder.specs.Index.{HasUpdates, HasNumbers};

use indexmap::IndexMap;
use message_types::{Signed, Update};
use plain_lists::{Copied, Want};

/// The first update taken of each client and number.
pub type Updates = IndexMap<(u32, u64), Signed<Update>>;

/// Notes an update, unless one of its client and number is there.
pub fn note_update(updates: &mut Updates, frame: &Signed<Update>) -> Result<(), Want>
    ensures noted { OnOk result ((taken : List (SignedWord Word)) → HasUpdates taken updates.old.entries
        → HasUpdates (taken ++ as_frame body.Update frame.now ∷ []) updates.new.entries) }
    ensures numbers { OnOk result (HasNumbers updates.old.entries → HasNumbers updates.new.entries) }
    ensures refused { OnErr result (IsUnchanged updates.old updates.new) }
{
    let key = key_of(frame.body.client, frame.body.t);
    if updates.contains_key(&key) {
        return Ok(());
    }
    updates.insert(key, frame.copy()?)?;
    Ok(())
}

fn key_of(client: u32, number: u64) -> (u32, u64)
    ensures key { result ≡ (client, number) }
    ensures fits { number < 2 ^ 64 }
{
    (client, number)
}
