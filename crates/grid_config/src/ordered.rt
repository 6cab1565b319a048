//! That a document stands in the order of its keys' bytes, as each table does.
ghost use Rattle.std.specs.Prelude.{◌≡◌, true};
ghost use Rattle.toml.specs.Data.{as_table};
ghost use Rattle.toml.specs.View.{table_view, view};
ghost use Rattle.grid_config.specs.Configured.{ascend, is_in_order, section_ascends, sections_ascend};

use toml::{Table, Value};

/// The keys of a table ascend.
fn ascends(table: &Table)
    ensures { ascend (table_view table.now) ≡ true }
{
    let _count = table.len();
}

fn section_ascends(value: &Value)
    ensures { section_ascends (as_table (view value.now)) ≡ true }
{
    match value.as_table() {
        Some(keys) => ascends(keys),
        None => {}
    }
}

fn sections_ascend(document: &Table)
    ensures { sections_ascend (table_view document.now) ≡ true }
{
    'sections: for (_section, value) in document.iter() {
        section_ascends(value);
    }
}

/// The sections stand in the order of their bytes, and the keys of each. For the proof alone.
pub(crate) fn is_in_order(document: &Table)
    ensures { is_in_order (table_view document.now) ≡ true }
{
    ascends(document);
    sections_ascend(document);
}
