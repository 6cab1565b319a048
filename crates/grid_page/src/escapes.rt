//! Text in HTML.
ghost use Rattle.std.specs.Prelude.{◌≡◌, ◌++◌, OnOk};
ghost use Rattle.grid_page.specs.Escapes.{escaped, with_escaped};

use grid_types::NoMemory;
use text_sheet::Sheet;

fn put_byte(sheet: &mut Sheet, byte: u8) -> Result<(), NoMemory>
    ensures { OnOk result (sheet.new.bytes.items ≡ sheet.old.bytes.items ++ escaped byte) }
{
    match byte {
        b'&' => sheet.text("&amp;"),
        b'<' => sheet.text("&lt;"),
        b'>' => sheet.text("&gt;"),
        b'"' => sheet.text("&quot;"),
        other => sheet.bytes(&[other]),
    }
}

/// Puts the bytes of a text last, with the signs of markup escaped.
pub(crate) fn put_escaped(sheet: &mut Sheet, bytes: &[u8]) -> Result<(), NoMemory>
    ensures { OnOk result (sheet.new.bytes.items
        ≡ with_escaped sheet.old.bytes.items bytes.now) }
{
    for byte in bytes {
        put_byte(sheet, *byte)?;
    }
    Ok(())
}
