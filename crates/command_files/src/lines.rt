//! The lines of keys, as they are written.
ghost use Rattle.std.specs.Prelude.{◌≡◌, ◌++◌, OnOk, string_bytes};
ghost use Rattle.command_files.specs.Keys.{own_line, ring_line};

use plain_lists::Want;
use std::alloc::Global;

/// Appends an actor's line of a ring: its name, and its public key in lower-case hex digits.
#[tactic(auto, unfolding(crate::specs::Keys::ring_line))]
pub fn put_ring_line(
    alloc: Global,
    text: &mut String,
    name: &str,
    public: &[u8],
) -> Result<(), Want>
    ensures { OnOk result (string_bytes text.new ≡ string_bytes text.old ++ ring_line name.now public.now) }
{
    let digits = hex::encode(alloc, public)?;
    let digits = digits.as_str();
    write!(text, "{name} {digits}\n")?;
    Ok(())
}

/// Appends the line of an actor's own key: its name, the key's seed and its identifier in lower-case hex digits.
#[tactic(auto, unfolding(crate::specs::Keys::own_line))]
pub fn put_own_line(
    alloc: Global,
    text: &mut String,
    name: &str,
    seed: &[u8],
    identifier: &[u8],
) -> Result<(), Want>
    ensures { OnOk result (string_bytes text.new ≡ string_bytes text.old ++ own_line name.now seed.now identifier.now) }
{
    let seed = hex::encode(alloc, seed)?;
    let seed = seed.as_str();
    let identifier = hex::encode(alloc, identifier)?;
    let identifier = identifier.as_str();
    write!(text, "{name} {seed} {identifier}\n")?;
    Ok(())
}
