//! Why a hub does not go on from its journal, in words for whoever started it.

use grid_opening::OpeningFault;
use hub_store::HubOption;
use journal_verdicts::Verdict;
use std::{fmt, io};

/// Why a hub does not go on from its journal.
#[derive(Debug, Drop)]
pub enum Trouble {
    /// The file could not be opened, locked or cut.
    System(io::Error),
    /// Another hub has it.
    Held,
    /// It could not be read.
    Read,
    /// It is no journal of a legal history.
    Verdict(Verdict),
    /// It is the journal of a hub that was started with another value of this option.
    Option(&'static str),
    /// What was under way could not be settled.
    Opening(OpeningFault),
    /// There was no memory.
    Memory,
}

/// The option as a hub's words name it.
pub(crate) fn name_of(option: HubOption) -> &'static str {
    match option {
        HubOption::RequestTimeout => "--session-request-timeout",
        HubOption::SessionTimeout => "--session-timeout",
        HubOption::QueueLimit => "--queue-limit",
        HubOption::Unsupported => "--reject-unsupported-caps",
        HubOption::Lapse => "time without a node's beat",
    }
}

/// What is wrong with the bytes, in words.
fn verdict_words<W: fmt::Write>(verdict: &Verdict, f: &mut fmt::Formatter<W>) -> fmt::Result {
    match verdict {
        Verdict::Illegal { entry } => write!(f, "its entry {entry} may not follow those before it"),
        Verdict::Bad { at } => write!(f, "no entry begins behind byte {at}"),
        Verdict::NotJournal => f.write_str("it is not a hub's journal"),
        Verdict::Limit => f.write_str("it is longer than a journal may be"),
        Verdict::Legal { .. } | Verdict::Cut { .. } => f.write_str("it is a journal"),
    }
}

fn opening_words(fault: OpeningFault) -> &'static str {
    match fault {
        OpeningFault::Unkept => "an entry could not be written; is the disk full?",
        OpeningFault::Memory => "out of memory",
        OpeningFault::Late => "its last moment is the last that there is",
        OpeningFault::Numbers => "it has used up the numbers of callers",
    }
}

impl fmt::Display for Trouble {
    fn fmt<W: fmt::Write>(&self, f: &mut fmt::Formatter<W>) -> fmt::Result {
        match self {
            Trouble::System(error) => write!(f, "{error}"),
            Trouble::Held => f.write_str("another hub has it"),
            Trouble::Read => f.write_str("it could not be read"),
            Trouble::Verdict(verdict) => {
                verdict_words(verdict, f)?;
                f.write_str("; it is left as it is")
            }
            Trouble::Option(name) => write!(
                f,
                "it is of a hub with another {name}; it is left as it is"
            ),
            Trouble::Opening(fault) => f.write_str(opening_words(*fault)),
            Trouble::Memory => f.write_str("out of memory"),
        }
    }
}
