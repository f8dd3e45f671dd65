//! Texts that come into a page as the content of an element.
ghost use Rattle.std.specs.Prelude.{◌≡◌, ◌++◌, OnOk};
ghost use Rattle.page_text.specs.Escaping.{escaped, escaped_byte};

use plain_lists::Want;

/// Appends a text so that a browser shows it as it is, and takes nothing of it for an element or another character.
pub fn put_escaped(page: &mut Vec<u8>, text: &[u8]) -> Result<(), Want>
    ensures { OnOk result (page.new.items ≡ page.old.items ++ escaped text.now) }
{
    for byte in text {
        put_byte(page, *byte)?;
    }
    Ok(())
}

fn put_byte(page: &mut Vec<u8>, byte: u8) -> Result<(), Want>
    ensures { OnOk result (page.new.items ≡ page.old.items ++ escaped_byte byte) }
{
    match byte {
        b'<' => page.extend_from_slice(b"&lt;".as_slice())?,
        b'&' => page.extend_from_slice(b"&amp;".as_slice())?,
        b'"' => page.extend_from_slice(b"&quot;".as_slice())?,
        other => page.push(other)?,
    }
    Ok(())
}
