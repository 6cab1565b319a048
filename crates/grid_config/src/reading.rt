//! The words of a program that a text of TOML stands for.
ghost use Rattle.std.specs.Prelude.{◌≡◌, map};
ghost use Rattle.grid_config.specs.Configured.{Says};
ghost use Rattle.grid_config.specs.Rows.{attach_rows, row_told, rows_of};

use crate::checking::check;
use crate::fault::ConfigFault;
use crate::ordered::is_in_order;
use crate::rows::{Mode, Row, attach_rows, rows_of};
use crate::words::{WordList, words_in};
use std::alloc::Global;

/// The most bytes of a configuration.
pub const MOST_TEXT_BYTES: usize = 65_536;

/// The words that the text stands for by the table.
fn words_by(alloc: Global, rows: &[Row], text: &[u8]) -> Result<WordList, ConfigFault>
    ensures { Says (map row_told rows.now) text.now result }
{
    if text.len() > MOST_TEXT_BYTES {
        return Err(ConfigFault::TooLong);
    }
    let document = match toml::table_from_slice(alloc, text) {
        Ok(document) => document,
        Err(error) => {
            if error.is_memory() {
                return Err(ConfigFault::Memory);
            }
            return Err(ConfigFault::NotToml);
        }
    };
    is_in_order(&document);
    if let Err(fault) = check(alloc, rows, &document) {
        return Err(fault);
    }
    Ok(words_in(alloc, rows, &document)?)
}

/// The words of the hub's or the node's program that the text stands for: for each row of the program's table, in
/// its order, whose key is there, the option and its value.
///
/// Err is the first of these that holds: the text is too long; it is no TOML; a section or a key is of no row, or a value
/// may not stand for its key, of which the first by the order of sections and of keys is told. Or memory was wanted.
pub fn config_words(alloc: Global, mode: Mode, text: &[u8]) -> Result<WordList, ConfigFault>
    ensures { Says (rows_of mode) text.now result }
{
    words_by(alloc, rows_of(mode), text)
}

/// The words of the program that puts a driver behind a hub, as [`config_words`] gives those of the others.
pub fn attach_config_words(alloc: Global, text: &[u8]) -> Result<WordList, ConfigFault>
    ensures { Says attach_rows text.now result }
{
    words_by(alloc, attach_rows(), text)
}
