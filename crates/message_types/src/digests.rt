ghost use Rattle.std.specs.Prelude.{◌≡◌, ◌++◌, ◌<◌, ◌^◌, ℕ, List, length, IsTrue};
ghost use Rattle.std.specs.List.{flat_map};
ghost use Rattle.sha2.specs.Hashers.{Holds256};
ghost use Rattle.wire_parts.specs.Fields.{u8_bytes, u16_bytes, u32_bytes, u64_bytes, i64_bytes};
ghost use Rattle.message_types.specs.Texts.{op_text, update_text, list_text, rows_text};
ghost use Rattle.message_types.specs.Digests.{digest_of_update, digest_of_rows};
ghost use Rattle.message_types.specs.Spelling.{rows_fit};

use crate::{Op, Rows, Update};
use plain_lists::Vector;
use sha2::{Digest, Sha256};

#[tactic(auto, unfolding(wire_parts::specs::Fields::u16_bytes))]
fn hash_u16(hasher: &mut Sha256, value: u16)
    ensures { (m : List ℕ) → Holds256 hasher.old m → Holds256 hasher.new (m ++ u16_bytes value) }
{
    hasher.update(value.to_be_bytes());
}

#[tactic(auto, unfolding(wire_parts::specs::Fields::u32_bytes))]
fn hash_u32(hasher: &mut Sha256, value: u32)
    ensures { (m : List ℕ) → Holds256 hasher.old m → Holds256 hasher.new (m ++ u32_bytes value) }
{
    hasher.update(value.to_be_bytes());
}

#[tactic(auto, unfolding(wire_parts::specs::Fields::u64_bytes))]
fn hash_u64(hasher: &mut Sha256, value: u64)
    ensures { (m : List ℕ) → Holds256 hasher.old m → Holds256 hasher.new (m ++ u64_bytes value) }
{
    hasher.update(value.to_be_bytes());
}

fn hash_op(hasher: &mut Sha256, op: Op)
    ensures { (m : List ℕ) → Holds256 hasher.old m → Holds256 hasher.new (m ++ op_text op) }
{
    match op {
        Op::Reading { point, value } => hash_point(hasher, 1, point, value),
        Op::Set { point, value } => hash_point(hasher, 2, point, value),
        Op::Ack { alarm } => {
            hasher.update([3]);
            hash_u32(hasher, alarm);
        }
    }
}

fn hash_point(hasher: &mut Sha256, kind: u8, point: u32, value: i64)
    ensures { (m : List ℕ) → Holds256 hasher.old m
        → Holds256 hasher.new (m ++ (u8_bytes kind ++ u32_bytes point ++ i64_bytes value)) }
{
    hasher.update([kind]);
    hash_u32(hasher, point);
    hash_u64(hasher, value.cast_unsigned());
}

/// The digest of an update. It takes no memory.
#[tactic(auto, unfolding(crate::specs::Digests::digest_of_update))]
pub fn update_digest(update: &Update) -> [u8; 32]
    ensures { result ≡ digest_of_update update.now }
{
    let mut hasher = Sha256::new();
    hash_u16(&mut hasher, 1);
    hash_u32(&mut hasher, update.client);
    hash_u64(&mut hasher, update.t);
    hash_op(&mut hasher, update.op);
    hasher.finalize()
}

fn hash_row(hasher: &mut Sha256, row: &Vector)
    requires { length row.now < 2 ^ 16 }
    ensures { (m : List ℕ) → Holds256 hasher.old m → Holds256 hasher.new (m ++ list_text u64_bytes row.now) }
{
    hash_u16(hasher, row.len() as u16);
    for number in row.as_slice() {
        hash_u64(hasher, *number);
    }
}

/// The digest of rows. It takes no memory.
#[tactic(auto, unfolding(crate::specs::Digests::digest_of_rows))]
pub fn rows_digest(rows: &Rows) -> [u8; 32]
    requires { IsTrue (rows_fit rows.now) }
    ensures { result ≡ digest_of_rows rows.now }
{
    let mut hasher = Sha256::new();
    hash_u16(&mut hasher, 0x00f0);
    hash_u16(&mut hasher, rows.len() as u16);
    for row in rows.as_slice() {
        hash_row(&mut hasher, row);
    }
    hasher.finalize()
}
