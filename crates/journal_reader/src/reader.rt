//! The reader of a journal.
ghost use Rattle.std.specs.Prelude.{◌≡◌, ◌+◌, ◌<◌, ◌≤◌, ℕ, [], true, false, length, List, IfOk, IsErrOf};
ghost use Rattle.grid_types.specs.declared.entry.Entry.{Entry};
ghost use Rattle.grid_outside.specs.Counts.{Rose};
ghost use Rattle.grid_journal.specs.EntryReads.{BeginsEntry, BeginsWithEntry, EntryRead};
ghost use Rattle.journal_reader.specs.Feeds.{Grew, waiting};
ghost use Rattle.journal_reader.specs.Readings.{Told, Goes, GoesIf, HasBegun, HasRead, Heads, Lessens, LessensIf, Opens, Stays, StaysIf, asked_again, most_bytes, told};

use crate::feed::{Feed, ReadFault};
use grid_journal::{EntryStep, HEAD_BYTES, HeadStep, read_entry, read_head};
use grid_outside::Source;
use grid_types::{Entry, HubConfig};
use std::alloc::Global;

/// How a journal ends.
#[derive(Clone, Copy, Debug, PartialEq, Eq)]
pub enum Ending {
    /// The input ends behind an entry, or behind the head.
    Whole,
    /// The input ends inside an entry.
    Cut,
    /// No entry begins so.
    Bad,
    /// There are 2^40 bytes at least.
    Limit,
}

/// What a journal has next.
#[derive(Drop)]
pub enum Next {
    /// An entry.
    Entry(Entry),
    /// No entry more.
    Ends(Ending),
}

/// What is found at the front of the input.
enum Head {
    /// A head with this configuration, which is valid.
    Config(HubConfig),
    /// The input ends inside a head.
    Cut,
    /// No such head.
    NotJournal,
}

/// A journal that is read: its configuration, and what was read and not taken off.
#[derive(Drop)]
pub struct JournalReader {
    config: HubConfig,
    feed: Feed,
    alloc: Global,
}

/// How a journal begins.
#[derive(Drop)]
pub enum Opened {
    /// With a head whose configuration is valid; its entries come next.
    Journal(JournalReader),
    /// The input ends inside a head.
    Cut,
    /// No head begins so, or its configuration is not valid.
    NotJournal,
}

/// Takes the head off the front of the input.
fn take_head<S: Source>(feed: &mut Feed, input: &mut S) -> Result<Head, ReadFault>
    requires nothing { waiting feed.old ≡ [] }
    requires first { feed.old.taken ≡ 0 }
    requires open { feed.old.ended ≡ false }
    ensures heads { IfOk result (λ found.
        Heads (told (S.view input.old).given (S.view input.old).ends)
        (told (S.view input.new).given (S.view input.new).ends) feed.new found) }
    ensures ends { (S.view input.old).ends ≤ (S.view input.new).ends }
    ensures faults { (S.view input.old).faults ≤ (S.view input.new).faults }
    ensures cause { IsErrOf result ReadFault.Read →
        Rose (S.view input.old).faults (S.view input.new).faults }
{
    'pieces: loop {
        match read_head(feed.waiting()) {
            HeadStep::Whole(config) => {
                feed.take_off(HEAD_BYTES);
                return Ok(Head::Config(config));
            }
            HeadStep::NotJournal => return Ok(Head::NotJournal),
            HeadStep::More => {
                if feed.has_ended() {
                    return Ok(Head::Cut);
                }
                feed.refill(input)?;
            }
        }
    }
}

impl JournalReader {
    /// Reads the head of a journal.
    ///
    /// # Errors
    /// `Read` where a read failed, `Memory` for want of memory.
    pub fn open<S: Source>(alloc: Global, input: &mut S) -> Result<Opened, ReadFault>
        ensures opens { IfOk result (λ found.
            Opens (told (S.view input.old).given (S.view input.old).ends)
            (told (S.view input.new).given (S.view input.new).ends) found) }
        ensures faults { (S.view input.old).faults ≤ (S.view input.new).faults }
        ensures cause { IsErrOf result ReadFault.Read →
            Rose (S.view input.old).faults (S.view input.new).faults }
    {
        let mut feed = Feed::new(alloc);
        match take_head(&mut feed, input)? {
            Head::Config(config) => Ok(Opened::Journal(JournalReader {
                config,
                feed,
                alloc,
            })),
            Head::Cut => Ok(Opened::Cut),
            Head::NotJournal => Ok(Opened::NotJournal),
        }
    }

    /// The input ends here.
    fn end(&self) -> Next
        requires ended { self.now.feed.ended ≡ true }
        requires begins { BeginsEntry (waiting self.now.feed) }
        ensures goes { (start now : Told) (H : List Entry) → HasRead start now self.now H →
            Goes start now self.now H result }
        ensures stays { (start now : Told) (H : List Entry) → HasRead start now self.now H →
            Stays start now self.now H result }
        ensures less { Lessens self.now.feed self.now.feed result }
    {
        if self.feed.count() == 0 {
            Next::Ends(Ending::Whole)
        } else {
            Next::Ends(Ending::Cut)
        }
    }

    /// Reads on where the bytes that wait are a part of an entry, or none.
    fn read_on<S: Source>(&mut self, input: &mut S) -> Result<Option<Next>, ReadFault>
        requires { BeginsEntry (waiting self.old.feed) }
        ensures goes { IfOk result (λ found. (start : Told) (H : List Entry) →
            HasRead start (told (S.view input.old).given (S.view input.old).ends) self.old H →
            GoesIf start (told (S.view input.new).given (S.view input.new).ends) self.new H found) }
        ensures stays { IfOk result (λ found. (start : Told) (H : List Entry) →
            HasRead start (told (S.view input.old).given (S.view input.old).ends) self.old H →
            StaysIf start (told (S.view input.new).given (S.view input.new).ends) self.new H found) }
        ensures grew { Grew (S.view input.old).given (S.view input.new).given }
        ensures less { IfOk result (λ found. LessensIf self.old.feed self.new.feed found) }
        ensures config { self.new.config ≡ self.old.config }
        ensures ends { (S.view input.old).ends ≤ (S.view input.new).ends }
        ensures faults { (S.view input.old).faults ≤ (S.view input.new).faults }
        ensures cause { IsErrOf result ReadFault.Read →
            Rose (S.view input.old).faults (S.view input.new).faults }
    {
        if self.feed.is_full() {
            return Ok(Some(Next::Ends(Ending::Limit)));
        }
        if self.feed.has_ended() {
            return Ok(Some(self.end()));
        }
        self.feed.refill(input)?;
        Ok(None)
    }

    /// Takes an entry of so many bytes off the front.
    fn take(&mut self, entry: Entry, len: usize) -> Next
        requires { BeginsWithEntry (waiting self.old.feed) entry len }
        ensures goes { (start now : Told) (H : List Entry) → HasRead start now self.old H →
            Goes start now self.new H result }
        ensures stays { (start now : Told) (H : List Entry) → Stays start now self.new H result }
        ensures less { Lessens self.old.feed self.new.feed result }
        ensures config { self.new.config ≡ self.old.config }
    {
        self.feed.take_off(len);
        Next::Entry(entry)
    }

    /// Does what the bytes that wait call for.
    fn follow<S: Source>(
        &mut self,
        step: EntryStep,
        input: &mut S,
    ) -> Result<Option<Next>, ReadFault>
        requires { EntryRead (waiting self.old.feed) step }
        ensures goes { IfOk result (λ found. (start : Told) (H : List Entry) →
            HasRead start (told (S.view input.old).given (S.view input.old).ends) self.old H →
            GoesIf start (told (S.view input.new).given (S.view input.new).ends) self.new H found) }
        ensures stays { IfOk result (λ found. (start : Told) (H : List Entry) →
            HasRead start (told (S.view input.old).given (S.view input.old).ends) self.old H →
            StaysIf start (told (S.view input.new).given (S.view input.new).ends) self.new H found) }
        ensures grew { Grew (S.view input.old).given (S.view input.new).given }
        ensures less { IfOk result (λ found. LessensIf self.old.feed self.new.feed found) }
        ensures config { self.new.config ≡ self.old.config }
        ensures ends { (S.view input.old).ends ≤ (S.view input.new).ends }
        ensures faults { (S.view input.old).faults ≤ (S.view input.new).faults }
        ensures cause { IsErrOf result ReadFault.Read →
            Rose (S.view input.old).faults (S.view input.new).faults }
    {
        match step {
            EntryStep::Whole(entry, len) => Ok(Some(self.take(entry, len))),
            EntryStep::More => self.read_on(input),
            EntryStep::Bad => Ok(Some(Next::Ends(Ending::Bad))),
        }
    }

    /// Looks at the bytes that wait.
    fn look<S: Source>(&mut self, input: &mut S) -> Result<Option<Next>, ReadFault>
        ensures goes { IfOk result (λ found. (start : Told) (H : List Entry) →
            HasRead start (told (S.view input.old).given (S.view input.old).ends) self.old H →
            GoesIf start (told (S.view input.new).given (S.view input.new).ends) self.new H found) }
        ensures stays { IfOk result (λ found. (start : Told) (H : List Entry) →
            HasRead start (told (S.view input.old).given (S.view input.old).ends) self.old H →
            StaysIf start (told (S.view input.new).given (S.view input.new).ends) self.new H found) }
        ensures grew { Grew (S.view input.old).given (S.view input.new).given }
        ensures less { IfOk result (λ found. LessensIf self.old.feed self.new.feed found) }
        ensures config { self.new.config ≡ self.old.config }
        ensures ends { (S.view input.old).ends ≤ (S.view input.new).ends }
        ensures faults { (S.view input.old).faults ≤ (S.view input.new).faults }
        ensures cause { IsErrOf result ReadFault.Read →
            Rose (S.view input.old).faults (S.view input.new).faults }
    {
        match read_entry(self.alloc, self.feed.waiting()) {
            Ok(step) => self.follow(step, input),
            Err(_) => Err(ReadFault::Memory),
        }
    }

    /// Reads on behind the end of the input, where it may have grown: the next call asks it for more, and tells an end only
    /// where the input has told one since.
    pub fn go_on(&mut self)
        ensures read { (start now : Told) (H : List Entry) → HasRead start now self.old H →
            HasRead start now self.new H }
        ensures again { (start now : Told) (H : List Entry) → HasRead start now self.old H →
            HasRead (asked_again start now) now self.new H }
        ensures config { self.new.config ≡ self.old.config }
    {
        self.feed.go_on();
    }

    /// What its hub was set up with.
    pub fn config(&self) -> HubConfig
        ensures { result ≡ self.now.config }
    {
        self.config
    }

    /// The next entry, or how the journal ends. Whatever the history was whose journal was read so far, it has the entry now;
    /// and the input gave that journal, and perhaps more, also where an error is answered. Where the journal ended, it has been
    /// read as before.
    ///
    /// # Errors
    /// `Read` where a read failed, `Memory` for want of memory.
    pub fn next<S: Source>(&mut self, input: &mut S) -> Result<Next, ReadFault>
        ensures goes { IfOk result (λ found. (start : Told) (H : List Entry) →
            HasRead start (told (S.view input.old).given (S.view input.old).ends) self.old H →
            Goes start (told (S.view input.new).given (S.view input.new).ends) self.new H found) }
        ensures stays { IfOk result (λ found. (start : Told) (H : List Entry) →
            HasRead start (told (S.view input.old).given (S.view input.old).ends) self.old H →
            Stays start (told (S.view input.new).given (S.view input.new).ends) self.new H found) }
        ensures begun { (start : Told) (H : List Entry) →
            HasRead start (told (S.view input.old).given (S.view input.old).ends) self.old H →
            HasBegun start (told (S.view input.new).given (S.view input.new).ends) self.old.config H }
        ensures less { IfOk result (λ found. Lessens self.old.feed self.new.feed found) }
        ensures config { self.new.config ≡ self.old.config }
        ensures faults { (S.view input.old).faults ≤ (S.view input.new).faults }
        ensures cause { IsErrOf result ReadFault.Read →
            Rose (S.view input.old).faults (S.view input.new).faults }
    {
        'pieces: loop {
            if let Some(found) = self.look(input)? {
                return Ok(found);
            }
        }
    }
}
