//! What is wrong with a text, for whoever wrote it.

use crate::fault::ConfigFault;
use crate::rows::{Row, has_section, kind_at};
use std::alloc::Global;

/// Where the text stops to be TOML, and why.
fn toml_reason(alloc: Global, text: &[u8]) -> Option<String> {
    let error = toml::table_from_slice(alloc, text).err()?;
    let told = format!(in alloc; "{error}").ok()?;
    let mut lines = told.lines();
    let place = lines.next().unwrap_or("");
    let why = lines.next().unwrap_or("");
    format!(in alloc; "{place}: {why}").ok()
}

/// What no row is of. Its name is any text, so it is told in quotes, on one line.
fn unknown_reason(alloc: Global, rows: &[Row], section: &str, key: &str) -> Option<String> {
    if has_section(rows, section) {
        format!(in alloc; "[{section}] {key:?}: there is no such key").ok()
    } else {
        format!(in alloc; "[{section:?}]: there is no such section").ok()
    }
}

/// What is to stand for the key in place of what does.
fn value_reason(alloc: Global, rows: &[Row], section: &str, key: &str) -> Option<String> {
    match kind_at(rows, section, key) {
        Some(kind) => format!(in alloc; "[{section}] {key}: this must be {kind}").ok(),
        None => format!(in alloc; "[{section}]: this is no section").ok(),
    }
}

/// What is wrong with a text that has this fault by the table of keys, in one line: the section and the key, or the line and
/// the column of a text that is no TOML. None where there is no memory to say it.
pub fn reason_of(alloc: Global, rows: &[Row], text: &[u8], fault: &ConfigFault) -> Option<String> {
    match fault {
        ConfigFault::TooLong => String::from_str(alloc, "the text has over 65536 bytes").ok(),
        ConfigFault::NotToml => toml_reason(alloc, text),
        ConfigFault::UnknownKey { section, key } => {
            unknown_reason(alloc, rows, section.as_str(), key.as_str())
        }
        ConfigFault::WrongValue { section, key } => {
            value_reason(alloc, rows, section.as_str(), key.as_str())
        }
        ConfigFault::Memory => String::from_str(alloc, "out of memory").ok(),
    }
}
