//! The check of a journal: its head, and then entry after entry.
ghost use Rattle.std.specs.Prelude.{◌≡◌, ◌+◌, ◌<◌, ◌≤◌, ℕ, [], true, false, length, IfOk, IsErrOf};
ghost use Rattle.grid_outside.specs.Counts.{Rose};
ghost use Rattle.grid_journal.specs.EntryReads.{BeginsEntry, BeginsWithEntry, EntryRead};
ghost use Rattle.journal_verdicts.specs.Feeds.{waiting};
ghost use Rattle.journal_verdicts.specs.Verdicts.{IsVerdict, most_bytes, tells_end};
ghost use Rattle.journal_verdicts.specs.Checks.{Told, EndsAt, GoesOn, HasRead, Lessens, Opens, told};
ghost use Rattle.journal_verdicts.specs.ReadIn.{HasJournal, IsReadIn};

use crate::feed::Feed;
use crate::found::{Journal, ReadIn};
use crate::verdict::{CheckFault, Verdict};
use grid_journal::{EntryStep, HEAD_BYTES, HeadStep, read_entry, read_head};
use grid_ledger::{GridLedger, Listener, NoListener};
use grid_outside::Source;
use grid_types::{Entry, HubConfig, legal_is_safe};
use std::alloc::Global;

/// What is found at the front of the input.
enum Opened {
    /// A head with this configuration, which is valid.
    Config(HubConfig),
    /// No such head.
    Ends(Verdict),
}

/// Takes the head off the front of the input.
fn open<S: Source>(feed: &mut Feed, input: &mut S) -> Result<Opened, CheckFault>
    requires nothing { waiting feed.old ≡ [] }
    requires first { feed.old.taken ≡ 0 }
    requires open { feed.old.ended ≡ false }
    ensures opens { IfOk result (λ found.
        Opens (told (S.view input.old).given (S.view input.old).ends)
        (told (S.view input.new).given (S.view input.new).ends) feed.new found) }
    ensures ends { (S.view input.old).ends ≤ (S.view input.new).ends }
    ensures faults { (S.view input.old).faults ≤ (S.view input.new).faults }
    ensures cause { IsErrOf result CheckFault.Read →
        Rose (S.view input.old).faults (S.view input.new).faults }
{
    'pieces: loop {
        match read_head(feed.waiting()) {
            HeadStep::Whole(config) => {
                feed.take_off(HEAD_BYTES);
                return Ok(Opened::Config(config));
            }
            HeadStep::NotJournal => return Ok(Opened::Ends(Verdict::NotJournal)),
            HeadStep::More => {
                if feed.has_ended() {
                    return Ok(Opened::Ends(Verdict::Cut { at: 0 }));
                }
                feed.refill(input)?;
            }
        }
    }
}

/// A check behind the head: the ledger of the entries so far, how many these are, the greatest number of their callers, who was
/// told of them, and the input behind them.
#[derive(Drop)]
pub(crate) struct Checking<L: Drop> {
    ledger: GridLedger,
    entries: u64,
    most_caller: u64,
    listener: L,
    feed: Feed,
    alloc: Global,
}

impl<L: Listener + Drop> Checking<L> {
    /// The input ends here.
    fn end(&self) -> Verdict
        requires ended { self.now.feed.ended ≡ true }
        requires begins { BeginsEntry (waiting self.now.feed) }
        requires room { self.now.feed.taken + length (waiting self.now.feed) < most_bytes }
        ensures { (start now : Told) → HasRead L.heard start now self.now →
            EndsAt L.heard start now self.now result }
    {
        // For the proof alone: a legal history is safe.
        legal_is_safe();
        if self.feed.count() == 0 {
            Verdict::Legal {
                entries: self.entries,
            }
        } else {
            Verdict::Cut {
                at: self.feed.taken(),
            }
        }
    }

    /// Reads on where the bytes that wait are a part of an entry, or none.
    fn read_on<S: Source>(&mut self, input: &mut S) -> Result<Option<Verdict>, CheckFault>
        requires { BeginsEntry (waiting self.old.feed) }
        ensures goes { IfOk result (λ found.
            GoesOn L.heard (told (S.view input.old).given (S.view input.old).ends)
            (told (S.view input.new).given (S.view input.new).ends) self.old self.new found) }
        ensures less { IfOk result (λ found. Lessens self.old.feed self.new.feed found) }
        ensures ends { (S.view input.old).ends ≤ (S.view input.new).ends }
        ensures faults { (S.view input.old).faults ≤ (S.view input.new).faults }
        ensures cause { IsErrOf result CheckFault.Read →
            Rose (S.view input.old).faults (S.view input.new).faults }
    {
        if self.feed.is_full() {
            return Ok(Some(Verdict::Limit));
        }
        if self.feed.has_ended() {
            return Ok(Some(self.end()));
        }
        self.feed.refill(input)?;
        Ok(None)
    }

    /// Takes an entry of so many bytes off the front, where it is permitted.
    fn take(&mut self, entry: Entry, len: usize) -> Result<Option<Verdict>, CheckFault>
        requires { BeginsWithEntry (waiting self.old.feed) entry len }
        ensures goes { IfOk result (λ found. (now : Told) →
            GoesOn L.heard now now self.old self.new found) }
        ensures less { IfOk result (λ found. Lessens self.old.feed self.new.feed found) }
        ensures lacks { IsErrOf result CheckFault.Read → ⊥ }
    {
        if !self.ledger.permits(entry.caller, &entry.change) {
            return Ok(Some(Verdict::Illegal {
                entry: self.entries,
            }));
        }
        if self
            .listener
            .hear(&self.ledger, entry.caller, &entry.change)
            .is_err()
        {
            return Err(CheckFault::Memory);
        }
        self.most_caller = self.most_caller.max(entry.caller);
        if self.ledger.note(entry.caller, entry.change).is_err() {
            return Err(CheckFault::Memory);
        }
        self.feed.take_off(len);
        self.entries = self.entries.saturating_add(1);
        Ok(None)
    }

    /// Does what the bytes that wait call for.
    fn follow<S: Source>(
        &mut self,
        step: EntryStep,
        input: &mut S,
    ) -> Result<Option<Verdict>, CheckFault>
        requires { EntryRead (waiting self.old.feed) step }
        ensures goes { IfOk result (λ found.
            GoesOn L.heard (told (S.view input.old).given (S.view input.old).ends)
            (told (S.view input.new).given (S.view input.new).ends) self.old self.new found) }
        ensures less { IfOk result (λ found. Lessens self.old.feed self.new.feed found) }
        ensures ends { (S.view input.old).ends ≤ (S.view input.new).ends }
        ensures faults { (S.view input.old).faults ≤ (S.view input.new).faults }
        ensures cause { IsErrOf result CheckFault.Read →
            Rose (S.view input.old).faults (S.view input.new).faults }
    {
        match step {
            EntryStep::Whole(entry, len) => self.take(entry, len),
            EntryStep::More => self.read_on(input),
            EntryStep::Bad => Ok(Some(Verdict::Bad {
                at: self.feed.taken(),
            })),
        }
    }

    /// Looks at the bytes that wait.
    fn look<S: Source>(&mut self, input: &mut S) -> Result<Option<Verdict>, CheckFault>
        ensures goes { IfOk result (λ found.
            GoesOn L.heard (told (S.view input.old).given (S.view input.old).ends)
            (told (S.view input.new).given (S.view input.new).ends) self.old self.new found) }
        ensures less { IfOk result (λ found. Lessens self.old.feed self.new.feed found) }
        ensures ends { (S.view input.old).ends ≤ (S.view input.new).ends }
        ensures faults { (S.view input.old).faults ≤ (S.view input.new).faults }
        ensures cause { IsErrOf result CheckFault.Read →
            Rose (S.view input.old).faults (S.view input.new).faults }
    {
        match read_entry(self.alloc, self.feed.waiting()) {
            Ok(step) => self.follow(step, input),
            Err(_) => Err(CheckFault::Memory),
        }
    }

    /// Goes on to the verdict.
    fn run<S: Source>(&mut self, input: &mut S) -> Result<Verdict, CheckFault>
        ensures goes { IfOk result (λ v. (start : Told) →
            HasRead L.heard start (told (S.view input.old).given (S.view input.old).ends)
            self.old → EndsAt L.heard start
            (told (S.view input.new).given (S.view input.new).ends) self.new v) }
        ensures faults { (S.view input.old).faults ≤ (S.view input.new).faults }
        ensures cause { IsErrOf result CheckFault.Read →
            Rose (S.view input.old).faults (S.view input.new).faults }
    {
        'entries: loop {
            if let Some(verdict) = self.look(input)? {
                return Ok(verdict);
            }
        }
    }

    /// What is handed out at this verdict.
    fn left_at(self, verdict: Verdict) -> ReadIn<L>
        ensures verdict { result.verdict ≡ verdict }
        ensures journal { (start now : Told) → EndsAt L.heard start now self verdict →
            IsReadIn L.heard start.given now.given result }
    {
        let journal = match verdict {
            Verdict::Legal { .. } | Verdict::Cut { .. } => Some(Journal {
                whole: self.feed.taken(),
                ledger: self.ledger,
                entries: self.entries,
                most_caller: self.most_caller,
                listener: self.listener,
            }),
            _ => None,
        };
        ReadIn { verdict, journal }
    }
}

/// Reads the input up to a verdict on it: whether it is the journal of a legal history, or what is wrong with it first. Where it
/// is one, or one that is cut off behind its head, what stands for its history is handed out, with the listener, who was told of
/// each entry.
///
/// # Errors
/// `Read` where a read failed, `Memory` where there is no memory.
pub fn read_in<S: Source, L: Listener + Drop>(
    alloc: Global,
    input: &mut S,
    listener: L,
) -> Result<ReadIn<L>, CheckFault>
    requires { L.heard listener [] }
    ensures says { IfOk result (λ found. IsVerdict (S.view input.old).given
        (S.view input.new).given found.verdict) }
    ensures journal { IfOk result (λ found. IsReadIn L.heard (S.view input.old).given
        (S.view input.new).given found) }
    ensures end { IfOk result (λ found. tells_end found.verdict ≡ true →
        Rose (S.view input.old).ends (S.view input.new).ends) }
    ensures faults { (S.view input.old).faults ≤ (S.view input.new).faults }
    ensures cause { IsErrOf result CheckFault.Read →
        Rose (S.view input.old).faults (S.view input.new).faults }
{
    let mut feed = Feed::new(alloc);
    match open(&mut feed, input)? {
        Opened::Ends(verdict) => Ok(ReadIn {
            verdict,
            journal: None,
        }),
        Opened::Config(config) => {
            let mut checking = Checking {
                ledger: GridLedger::new(alloc, config),
                entries: 0,
                most_caller: 0,
                listener,
                feed,
                alloc,
            };
            let verdict = checking.run(input)?;
            Ok(checking.left_at(verdict))
        }
    }
}

/// Reads the input up to a verdict on it: whether it is the journal of a legal history, or what is wrong with it first.
///
/// # Errors
/// `Read` where a read failed, `Memory` where there is no memory.
pub fn check<S: Source>(alloc: Global, input: &mut S) -> Result<Verdict, CheckFault>
    ensures says { IfOk result (λ v. IsVerdict (S.view input.old).given (S.view input.new).given
        v) }
    ensures end { IfOk result (λ v. tells_end v ≡ true →
        Rose (S.view input.old).ends (S.view input.new).ends) }
    ensures faults { (S.view input.old).faults ≤ (S.view input.new).faults }
    ensures cause { IsErrOf result CheckFault.Read →
        Rose (S.view input.old).faults (S.view input.new).faults }
{
    match read_in(alloc, input, NoListener) {
        Ok(found) => Ok(found.verdict),
        Err(fault) => Err(fault),
    }
}
