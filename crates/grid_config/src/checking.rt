//! The first fault of a document.
ghost use Rattle.std.specs.Prelude.{◌≡◌, IfErr, IfOk, OnOk, None, Some, map};
ghost use Rattle.toml.specs.View.{table_view, view};
ghost use Rattle.grid_config.specs.Configured.{IsFault, fault_in, keys_fault, section_fault, value_fault};
ghost use Rattle.grid_config.specs.declared.fault.ConfigFault.TheVariants as fault;
ghost use Rattle.grid_config.specs.Rows.{row_told};

use crate::fault::ConfigFault;
use crate::rows::{Kind, Row, has_section, kind_at};
use crate::value::word_for;
use grid_types::{NoMemory, Text};
use std::alloc::Global;
use toml::{Table, Value};

/// Copies of both names.
fn copies(alloc: Global, section: &str, key: &str) -> Result<(Text, Text), NoMemory>
    ensures { IfOk result (λ names. (names.0 ≡ section.now) × (names.1 ≡ key.now)) }
{
    Ok((Text::of(alloc, section)?, Text::of(alloc, key)?))
}

/// There is no such section or key, or no memory to say so.
fn unknown(alloc: Global, section: &str, key: &str) -> ConfigFault
    ensures { IsFault result (Some (fault.UnknownKey section.now key.now)) }
{
    match copies(alloc, section, key) {
        Ok(names) => ConfigFault::UnknownKey {
            section: names.0,
            key: names.1,
        },
        Err(_) => ConfigFault::Memory,
    }
}

/// Something may not stand for the key, or there is no memory to say so.
fn wrong(alloc: Global, section: &str, key: &str) -> ConfigFault
    ensures { IsFault result (Some (fault.WrongValue section.now key.now)) }
{
    match copies(alloc, section, key) {
        Ok(names) => ConfigFault::WrongValue {
            section: names.0,
            key: names.1,
        },
        Err(_) => ConfigFault::Memory,
    }
}

/// Whether the value may stand for a key of the kind.
fn check_kind(
    alloc: Global,
    section: &str,
    key: &str,
    kind: Kind,
    value: &Value,
) -> Result<(), ConfigFault>
    ensures ok { OnOk result (value_fault section.now key.now (Some kind) (view value.now) ≡ None) }
    ensures err { IfErr result (λ f. IsFault f
        (value_fault section.now key.now (Some kind) (view value.now))) }
{
    let Ok(word) = word_for(alloc, kind, value) else {
        return Err(ConfigFault::Memory);
    };
    match word {
        Some(_) => Ok(()),
        None => Err(wrong(alloc, section, key)),
    }
}

/// Whether the value may stand for the key.
fn check_value(
    alloc: Global,
    section: &str,
    key: &str,
    kind: Option<Kind>,
    value: &Value,
) -> Result<(), ConfigFault>
    ensures ok { OnOk result (value_fault section.now key.now kind (view value.now) ≡ None) }
    ensures err { IfErr result (λ f. IsFault f
        (value_fault section.now key.now kind (view value.now))) }
{
    match kind {
        None => Err(unknown(alloc, section, key)),
        Some(kind) => check_kind(alloc, section, key, kind, value),
    }
}

/// The keys of a section, one after the other.
fn check_keys(alloc: Global, rows: &[Row], section: &str, keys: &Table) -> Result<(), ConfigFault>
    ensures ok { OnOk result (keys_fault (map row_told rows.now) section.now (table_view keys.now)
        ≡ None) }
    ensures err { IfErr result (λ f. IsFault f
        (keys_fault (map row_told rows.now) section.now (table_view keys.now))) }
{
    'keys: for (key, value) in keys.iter() {
        let kind = kind_at(rows, section, key.as_str());
        if let Err(fault) = check_value(alloc, section, key.as_str(), kind, value) {
            return Err(fault);
        }
    }
    Ok(())
}

fn check_section(
    alloc: Global,
    rows: &[Row],
    section: &str,
    value: &Value,
) -> Result<(), ConfigFault>
    ensures ok { OnOk result (section_fault (map row_told rows.now) section.now (view value.now)
        ≡ None) }
    ensures err { IfErr result (λ f. IsFault f
        (section_fault (map row_told rows.now) section.now (view value.now))) }
{
    if !has_section(rows, section) {
        return Err(unknown(alloc, section, ""));
    }
    match value.as_table() {
        Some(keys) => check_keys(alloc, rows, section, keys),
        None => Err(wrong(alloc, section, "")),
    }
}

/// All sections, one after the other.
pub(crate) fn check(alloc: Global, rows: &[Row], document: &Table) -> Result<(), ConfigFault>
    ensures ok { OnOk result (fault_in (map row_told rows.now) (table_view document.now) ≡ None) }
    ensures err { IfErr result (λ f. IsFault f
        (fault_in (map row_told rows.now) (table_view document.now))) }
{
    'sections: for (section, value) in document.iter() {
        if let Err(fault) = check_section(alloc, rows, section.as_str(), value) {
            return Err(fault);
        }
    }
    Ok(())
}
