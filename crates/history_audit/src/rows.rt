ghost use Rattle.std.specs.Prelude.{◌≡◌, ◌++◌, OnOk, IfOk};
ghost use Rattle.message_types.specs.Texts.{list_text, rows_text};
ghost use Rattle.wire_parts.specs.Fields.{u16_bytes, u64_bytes};

use message_types::Rows;
use plain_lists::{Vector, Want};
use std::alloc::Global;
use wire_parts::{put_u16, put_u64};

/// The text of rows.
pub fn text_of_rows(alloc: Global, rows: &Rows) -> Result<Vec<u8>, Want>
    ensures { IfOk result (λ text. text.items ≡ rows_text rows.now) }
{
    let mut text = Vec::new(alloc);
    put_u16(&mut text, 0x00f0)?;
    put_length(&mut text, rows.len())?;
    for row in rows.as_slice() {
        put_row(&mut text, row)?;
    }
    Ok(text)
}

fn put_row(out: &mut Vec<u8>, row: &Vector) -> Result<(), Want>
    ensures { OnOk result (out.new.items ≡ out.old.items ++ list_text u64_bytes row.now) }
{
    put_length(out, row.len())?;
    for number in row.as_slice() {
        put_u64(out, *number)?;
    }
    Ok(())
}

// A length stands in 16 bits, and only its lowest are written.
fn put_length(out: &mut Vec<u8>, length: usize) -> Result<(), Want>
    ensures { OnOk result (out.new.items ≡ out.old.items ++ u16_bytes length) }
{
    put_u16(out, (length % 65536) as u16)
}
