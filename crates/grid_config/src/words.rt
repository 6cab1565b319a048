//! The words that a document stands for.
ghost use Rattle.std.specs.Prelude.{◌≡◌, ◌∷◌, ◌++◌, [], List, ℕ, OnOk, IfOk, map, option_map};
ghost use Rattle.toml.specs.View.{table_view, view};
ghost use Rattle.grid_config.specs.Words.{value_at, words_in, words_of};
ghost use Rattle.grid_config.specs.Rows.{row_told};

use crate::rows::Row;
use crate::value::word_for;
use grid_types::{NoMemory, Text};
use std::alloc::Global;
use std::marker::Model;
use toml::{Table, Value};

/// Words in order, seen as their list.
#[derive(Debug, Drop)]
pub struct WordList {
    words: Vec<Text>,
}

impl Model for WordList {
    ghost use Rattle.std.specs.Prelude.{List, ℕ};

    ghost Value = { List (List ℕ) };

    ghost view = { λ w. w.words.items };
}

impl WordList {
    /// No words. It takes no memory.
    fn new(alloc: Global) -> WordList
        ensures { result ≡ [] }
    {
        WordList {
            words: Vec::new(alloc),
        }
    }

    /// The words in order.
    pub fn words(&self) -> &[Text]
        ensures { result.now ≡ self.now }
    {
        self.words.as_slice()
    }

    fn push(&mut self, word: Text) -> Result<(), NoMemory>
        ensures { OnOk result (self.new ≡ self.old ++ word ∷ []) }
    {
        match self.words.push(word) {
            Ok(()) => Ok(()),
            Err(_) => Err(NoMemory),
        }
    }
}

/// What stands for a key of a section.
fn value_at<'a>(document: &'a Table, section: &str, key: &str) -> Option<&'a Value>
    ensures { option_map (λ v. view v.now) result
        ≡ value_at (table_view document.now) section.now key.now }
{
    match document.get(section) {
        Some(value) => value.get(key),
        None => None,
    }
}

/// Puts a copy of the word behind the others.
fn put_copy(alloc: Global, word: &str, words: &mut WordList) -> Result<(), NoMemory>
    ensures { OnOk result (words.new ≡ words.old ++ word.now ∷ []) }
{
    words.push(Text::of(alloc, word)?)
}

/// Puts an option and its value behind the others.
fn put_pair(alloc: Global, option: &str, value: Text, words: &mut WordList) -> Result<(), NoMemory>
    ensures { OnOk result (words.new ≡ words.old ++ option.now ∷ value ∷ []) }
{
    match put_copy(alloc, option, words) {
        Ok(()) => words.push(value),
        Err(fault) => Err(fault),
    }
}

/// Puts the option of a row and its value behind the others, where the value is there.
fn put_words(
    alloc: Global,
    row: &Row,
    value: Option<&Value>,
    words: &mut WordList,
) -> Result<(), NoMemory>
    ensures { OnOk result (words.new ≡ words.old ++ words_of (row_told row.now)
        (option_map (λ v. view v.now) value.entry)) }
{
    match value {
        Some(value) => match word_for(alloc, row.kind, value)? {
            Some(text) => put_pair(alloc, row.option, text, words),
            None => Ok(()),
        },
        None => Ok(()),
    }
}

/// Puts the words of all rows behind the others.
fn put_all(
    alloc: Global,
    rows: &[Row],
    document: &Table,
    words: &mut WordList,
) -> Result<(), NoMemory>
    ensures { OnOk result (words.new ≡ words.old ++ words_in (map row_told rows.now)
        (table_view document.now)) }
{
    match rows {
        [] => Ok(()),
        [row, others @ ..] => {
            let value = value_at(document, row.section, row.key);
            put_words(alloc, row, value, words)?;
            put_all(alloc, others, document, words)
        }
    }
}

/// The words that a document without a fault stands for: for each row, in the table's order, whose key is there, the option
/// and its value. Err: out of memory.
pub(crate) fn words_in(alloc: Global, rows: &[Row], document: &Table) -> Result<WordList, NoMemory>
    ensures { IfOk result (λ words. words ≡ words_in (map row_told rows.now)
        (table_view document.now)) }
{
    let mut words = WordList::new(alloc);
    put_all(alloc, rows, document, &mut words)?;
    Ok(words)
}
