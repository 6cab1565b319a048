//! Commas between items.
ghost use Rattle.std.specs.Prelude.{◌≡◌, ◌++◌, OnOk, string_bytes};
ghost use Rattle.hub_status.specs.Joined.{comma};

use grid_types::NoMemory;

/// A comma, unless the item is the first.
pub(crate) fn push_comma(text: &mut String, index: usize) -> Result<(), NoMemory>
    ensures { OnOk result (string_bytes text.new ≡ string_bytes text.old ++ comma index) }
{
    if index > 0 {
        text.push_str(",")?;
    }
    Ok(())
}
