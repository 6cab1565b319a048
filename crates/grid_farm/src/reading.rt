//! A journal is read to its end.
ghost use Rattle.std.specs.Prelude.{◌≡◌, ◌<◌, None};
ghost use Rattle.journal_reader.specs.declared.reader.Opened.TheVariants as opened;
ghost use Rattle.journal_reader.specs.Readings.{left_of};
ghost use Rattle.grid_log.specs.Logging.{Begins, IsEntry};
ghost use Rattle.grid_log.specs.Logs.{Input, input_of};
ghost use Rattle.grid_farm.specs.Reads.{FarmEnds, HasNext, ReadEnds, ReadSoFar, Steps};

use crate::farm::KnownFarm;
use grid_outside::Source;
use journal_reader::{Ending, JournalReader, Next, Opened, ReadFault};
use std::alloc::Global;

/// Why a journal was not read to its end.
#[derive(Clone, Copy, Debug, PartialEq, Eq)]
pub enum Unread {
    /// The input is no journal.
    NotJournal,
    /// The input ends inside the head.
    Cut,
    /// A read failed, or memory was wanted.
    Fault(ReadFault),
}

/// A journal that is read, and what is known of its farm.
#[derive(Drop)]
pub(crate) struct Reading {
    reader: JournalReader,
    farm: KnownFarm,
}

/// What a journal told that was read to its end.
#[derive(Drop)]
pub struct FarmRead {
    pub farm: KnownFarm,
    /// How the journal ended.
    pub ending: Ending,
}

impl Reading {
    /// Takes note of the journal's next. How reading ends, where it does.
    fn follow(&mut self, next: Next) -> Option<Result<Ending, ReadFault>>
        ensures goes { (old now : Input) → HasNext old now self.old next →
            Steps old now self.new result }
        ensures reader { self.new.reader ≡ self.old.reader }
        ensures goes_on { result ≡ None → IsEntry next }
    {
        match next {
            Next::Entry(entry) => match self.farm.note(&entry) {
                Ok(()) => None,
                Err(_) => Some(Err(ReadFault::Memory)),
            },
            Next::Ends(ending) => Some(Ok(ending)),
        }
    }

    /// Reads an entry. How reading ends, where it does.
    fn step<S: Source>(&mut self, input: &mut S) -> Option<Result<Ending, ReadFault>>
        ensures goes { (old : Input) →
            ReadSoFar old (input_of (S.view input.old).given (S.view input.old).ends (S.view input.old).faults)
            self.old →
            Steps old (input_of (S.view input.new).given (S.view input.new).ends (S.view input.new).faults)
            self.new result }
        ensures less { result ≡ None →
            left_of self.new.reader.feed < left_of self.old.reader.feed }
    {
        match self.reader.next(input) {
            Ok(next) => self.follow(next),
            Err(fault) => Some(Err(fault)),
        }
    }

    /// Reads to the end.
    fn run<S: Source>(&mut self, input: &mut S) -> Result<Ending, ReadFault>
        ensures { (old : Input) →
            ReadSoFar old (input_of (S.view input.old).given (S.view input.old).ends (S.view input.old).faults)
            self.old →
            ReadEnds old (input_of (S.view input.new).given (S.view input.new).ends (S.view input.new).faults)
            self.new result }
    {
        'entries: loop {
            if let Some(ended) = self.step(input) {
                return ended;
            }
        }
    }
}

/// Reads a journal whose head was read.
fn read_entries<S: Source>(
    alloc: Global,
    reader: JournalReader,
    input: &mut S,
) -> Result<FarmRead, Unread>
    ensures { (old : Input) → Begins old
        (input_of (S.view input.old).given (S.view input.old).ends (S.view input.old).faults)
        (opened.Journal reader) → FarmEnds old
        (input_of (S.view input.new).given (S.view input.new).ends (S.view input.new).faults) result }
{
    let mut reading = Reading {
        reader,
        farm: KnownFarm::new(alloc),
    };
    match reading.run(input) {
        Ok(ending) => Ok(FarmRead {
            farm: reading.farm,
            ending,
        }),
        Err(fault) => Err(Unread::Fault(fault)),
    }
}

/// Reads what was opened.
fn read_opened<S: Source>(alloc: Global, opened: Opened, input: &mut S) -> Result<FarmRead, Unread>
    ensures { (old : Input) → Begins old
        (input_of (S.view input.old).given (S.view input.old).ends (S.view input.old).faults) opened →
        FarmEnds old
        (input_of (S.view input.new).given (S.view input.new).ends (S.view input.new).faults) result }
{
    match opened {
        Opened::Journal(reader) => read_entries(alloc, reader, input),
        Opened::Cut => Err(Unread::Cut),
        Opened::NotJournal => Err(Unread::NotJournal),
    }
}

/// Reads a journal to its end, and no further than to the first bytes that begin no entry. What is known then is what the
/// history of the entries tells that were read. Entries are not checked.
///
/// # Errors
/// `NotJournal` and `Cut` where the input begins with no head, `Fault` where a read failed and for want of memory.
pub fn read_farm<S: Source>(alloc: Global, input: &mut S) -> Result<FarmRead, Unread>
    ensures { FarmEnds
        (input_of (S.view input.old).given (S.view input.old).ends (S.view input.old).faults)
        (input_of (S.view input.new).given (S.view input.new).ends (S.view input.new).faults) result }
{
    match JournalReader::open(alloc, input) {
        Ok(opened) => read_opened(alloc, opened, input),
        Err(fault) => Err(Unread::Fault(fault)),
    }
}
