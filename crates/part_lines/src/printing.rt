//! The lines of a digest, of a part and of a text that is rebuilt.
ghost use Rattle.std.specs.Prelude.{◌≡◌, ◌++◌, [], OnOk, IfOk, string_bytes, if◌then◌else◌};
ghost use Rattle.std.specs.List.{flat_map};
ghost use Rattle.hex.specs.Hex.{encode_lower};
ghost use Rattle.quorum_sets.specs.Masters.{has_master, voters};
ghost use Rattle.part_lines.specs.Texts.{digest_words, part_words, text_words, wrong_words, line_of, rebuilt_lines};

use parity_parts::{Part, Rebuilt};
use plain_lists::Want;
use quorum_sets::{MOST_MASTERS, VoterSet};
use std::alloc::Global;

fn put_hex(alloc: Global, text: &mut String, bytes: &[u8]) -> Result<(), Want>
    ensures { OnOk result (string_bytes text.new ≡ string_bytes text.old ++ encode_lower bytes.now) }
{
    let digits = hex::encode(alloc, bytes)?;
    text.push_str(digits.as_str())?;
    Ok(())
}

/// Appends the line of a digest: `digest` and 64 hex digits.
#[tactic(auto, unfolding(crate::specs::Texts::line_of))]
pub fn put_digest(alloc: Global, text: &mut String, digest: &[u8; 32]) -> Result<(), Want>
    ensures { OnOk result (string_bytes text.new ≡ string_bytes text.old ++ line_of (digest_words digest.now)) }
{
    text.push_str("digest ")?;
    put_hex(alloc, text, digest)?;
    text.push_str("\n")?;
    Ok(())
}

/// Appends the line of a part: its master's name, the length of its text, and two hex digits for each of its bytes.
#[tactic(auto, unfolding(crate::specs::Texts::line_of))]
pub fn put_part(alloc: Global, text: &mut String, part: &Part) -> Result<(), Want>
    ensures { OnOk result (string_bytes text.new ≡ string_bytes text.old ++ line_of (part_words part.now)) }
{
    let master = part.master;
    let length = part.length;
    write!(text, "m{master} {length} ")?;
    put_hex(alloc, text, part.bytes.as_slice())?;
    text.push_str("\n")?;
    Ok(())
}

#[tactic(auto, unfolding(crate::specs::Texts::line_of))]
fn put_text(alloc: Global, text: &mut String, bytes: &[u8]) -> Result<(), Want>
    ensures { OnOk result (string_bytes text.new ≡ string_bytes text.old ++ line_of (text_words bytes.now)) }
{
    text.push_str("text ")?;
    put_hex(alloc, text, bytes)?;
    text.push_str("\n")?;
    Ok(())
}

#[tactic(auto, unfolding(crate::specs::Texts::line_of))]
fn put_wrong(text: &mut String, master: u32) -> Result<(), Want>
    ensures { OnOk result (string_bytes text.new ≡ string_bytes text.old ++ line_of (wrong_words master)) }
{
    write!(text, "wrong m{master}\n")?;
    Ok(())
}

fn put_wrong_if(text: &mut String, master: u32, is_wrong: bool) -> Result<(), Want>
    ensures { OnOk result (string_bytes text.new ≡ string_bytes text.old ++ (if is_wrong then line_of (wrong_words master) else [])) }
{
    if is_wrong {
        put_wrong(text, master)?;
    }
    Ok(())
}

/// Appends a line for each wrong master.
fn put_all_wrong(text: &mut String, wrong: &VoterSet) -> Result<(), Want>
    requires { wrong.now ≡ voters (has_master wrong.now) MOST_MASTERS }
    ensures { OnOk result (string_bytes text.new ≡ string_bytes text.old ++ flat_map (λ master. line_of (wrong_words master)) wrong.now) }
{
    for master in 0..MOST_MASTERS {
        put_wrong_if(text, master, wrong.has(master))?;
    }
    Ok(())
}

/// What is printed of a text that is rebuilt.
pub(crate) fn text_of(alloc: Global, made: &Rebuilt) -> Result<Vec<u8>, Want>
    requires { made.now.wrong ≡ voters (has_master made.now.wrong) MOST_MASTERS }
    ensures { IfOk result (λ text. text.items ≡ rebuilt_lines made.now.text made.now.wrong) }
{
    let mut text = String::new(alloc);
    put_text(alloc, &mut text, made.text.as_slice())?;
    put_all_wrong(&mut text, &made.wrong)?;
    Ok(text.into_bytes())
}
