//! The journal that the hub's program keeps.
ghost use Rattle.std.specs.Prelude.{◌≡◌, IfOk, IsErrOf, MatchOption, codes, false, true};
ghost use Rattle.std.specs.Str.{bytes_eq};
ghost use Rattle.clap.specs.Words.{first_of, found_of, rows_of};
ghost use Rattle.server_words.specs.Journals.{TellsJournal, file_said, file_told, is_sync, sync_said, sync_told};
ghost use Rattle.server_words.specs.declared.options.WordsFault.TheVariants as fault;

use crate::hub::hub_matches;
use crate::options::{WordsFault, set, text, texts};
use clap::ArgMatches;
use grid_types::Text;
use std::alloc::Global;

/// What the words of the hub's program say of its journal.
#[derive(Drop)]
pub struct JournalWords {
    /// The path of its file. None: the hub keeps no journal.
    pub file: Option<Text>,
    /// Whether what a turn enters is on the disk before the turn ends, and not within a second or so.
    pub each: bool,
}

/// Whether the text asks that each turn's entries are synced. None: it is neither word.
fn each_in(text: &str) -> Option<bool>
    ensures { MatchOption result (is_sync text.now ≡ false)
        (λ each. (is_sync text.now ≡ true) × (each ≡ bytes_eq text.now (codes "each"))) }
{
    if text == "each" {
        Some(true)
    } else if text == "second" {
        Some(false)
    } else {
        None
    }
}

/// A copy of the text that an option was set to, where the words set it.
fn copied(alloc: Global, matches: &ArgMatches<'_>, name: &str) -> Result<Option<Text>, WordsFault>
    ensures file { IfOk result (λ copy. copy ≡ first_of name.now (rows_of (found_of matches.now))) }
    ensures lack { IsErrOf result fault.Refused → ⊥ }
{
    match set(matches, name) {
        Some(text) => Ok(Some(Text::of(alloc, text)?)),
        None => Ok(None),
    }
}

/// The journal that what the words set the options to asks for.
fn journal_told(alloc: Global, matches: &ArgMatches<'_>) -> Result<JournalWords, WordsFault>
    ensures sync { IfOk result (λ _. is_sync (sync_told (rows_of (found_of matches.now))) ≡ true) }
    ensures file { IfOk result (λ told. told.file ≡ file_told (rows_of (found_of matches.now))) }
    ensures each { IfOk result (λ told. told.each
        ≡ bytes_eq (sync_told (rows_of (found_of matches.now))) (codes "each")) }
    ensures refused { IsErrOf result fault.Refused
        → is_sync (sync_told (rows_of (found_of matches.now))) ≡ false }
{
    let Some(each) = each_in(text(matches, "journal-sync", "second")) else {
        return Err(WordsFault::Refused);
    };
    match copied(alloc, matches, "journal") {
        Ok(file) => Ok(JournalWords { file, each }),
        Err(fault) => Err(fault),
    }
}

/// The journal that the words of the hub's program ask for: none, unless they name a file, which is synced each second unless they
/// say otherwise.
pub fn hub_journal(alloc: Global, words: &[Text]) -> Result<JournalWords, WordsFault>
    ensures told { IfOk result (λ _. TellsJournal words.now) }
    ensures file { IfOk result (λ told. told.file ≡ file_said words.now) }
    ensures each { IfOk result (λ told. told.each ≡ bytes_eq (sync_said words.now) (codes "each")) }
    ensures refused { IsErrOf result fault.Refused → ¬ (TellsJournal words.now) }
{
    let texts = texts(alloc, words)?;
    match hub_matches(alloc, texts.as_slice()) {
        Ok(matches) => journal_told(alloc, &matches),
        Err(fault) => Err(fault),
    }
}
