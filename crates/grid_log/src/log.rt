//! The log of a journal, entry by entry.
ghost use Rattle.std.specs.Prelude.{◌≡◌, ◌↔◌, ℕ, ◌<◌, ◌≤◌, true, None, Some, IfOk, OnOk, IfErr};
ghost use Rattle.grid_outside.specs.Told.{Gains};
ghost use Rattle.journal_reader.specs.Readings.{Lessens, left_of};
ghost use Rattle.journal_reader.specs.declared.reader.Opened.TheVariants as opened;
ghost use Rattle.grid_log.specs.Facts.{first_line, lines};
ghost use Rattle.grid_log.specs.Events.{entry_events};
ghost use Rattle.grid_log.specs.Past.{no_past, past_after};
ghost use Rattle.grid_log.specs.Recalls.{recalled};
ghost use Rattle.grid_log.specs.Logs.{Input, Output, Start, HasWaited, LogEnds, MayGoOn, Waits, ending_status, input_of, output_of, start_at};
ghost use Rattle.grid_log.specs.Logging.{Begins, HasLogged, HasNext, IsEntry, Steps, Stopped, fault_status, unlogged_status};

use crate::facts::moment_of;
use crate::form::Form;
use crate::recall::Recall;
use crate::telling::{QueueCount, Teller};
use grid_outside::{Clock, Sink, Source, write_all};
use grid_types::{Entry, NoMemory};
use journal_reader::{Ending, JournalReader, Next, Opened, ReadFault};
use std::alloc::Global;

/// The status of an input that is no journal.
pub const NOT_JOURNAL: u8 = 4;

/// The status of an input that ends inside the head, or inside an entry.
pub const CUT: u8 = 3;

/// How long a log waits for an input to grow, in milliseconds.
pub const PAUSE_MS: u64 = 500;

/// Why lines were not written.
#[derive(Clone, Copy)]
pub(crate) enum Unlogged {
    /// A write failed.
    Failed,
    /// There was no memory for them.
    Memory,
}

/// A journal that is read, what is remembered of its entries, and how they are told.
#[derive(Drop)]
pub(crate) struct Logging {
    reader: JournalReader,
    past: Recall,
    teller: Teller,
}

/// The status that tells how a journal ended.
pub fn ending_status(ending: Ending) -> u8
    ensures { result ≡ ending_status ending }
{
    match ending {
        Ending::Whole => 0,
        Ending::Bad => 2,
        Ending::Cut => CUT,
        Ending::Limit => 9,
    }
}

/// The status that tells why reading did not go on.
pub fn fault_status(fault: ReadFault) -> u8
    ensures { result ≡ fault_status fault }
{
    match fault {
        ReadFault::Read => 5,
        ReadFault::Memory => 7,
    }
}

fn unlogged_status(why: Unlogged) -> u8
    ensures { result ≡ unlogged_status why }
{
    match why {
        Unlogged::Failed => 6,
        Unlogged::Memory => 7,
    }
}

/// Whether a log that ended with this status may go on: its journal ended where its input ended.
fn may_go_on(status: u8) -> bool
    ensures { (result ≡ true) ↔ MayGoOn status }
{
    status == 0 || status == CUT
}

/// Writes lines.
fn put<K: Sink>(bytes: &[u8], output: &mut K) -> Result<(), Unlogged>
    ensures ok { OnOk result (Gains (K.view output.old).taken (K.view output.new).taken bytes.now) }
    ensures stopped { IfErr result (λ why. Stopped
        (output_of (K.view output.old).taken (K.view output.old).faults)
        (output_of (K.view output.new).taken (K.view output.new).faults) bytes.now why) }
    ensures faults { (K.view output.old).faults ≤ (K.view output.new).faults }
{
    match write_all(output, bytes) {
        Ok(()) => Ok(()),
        Err(_) => Err(Unlogged::Failed),
    }
}

impl Logging {
    /// The lines of an entry, of which it takes note.
    fn lines_of(&mut self, entry: &Entry) -> Result<Vec<u8>, NoMemory>
        ensures bytes { IfOk result (λ bytes. bytes.items ≡ lines self.old.teller.form
            (entry_events self.old.reader.config (recalled self.old.past) entry.now)) }
        ensures past { IfOk result (λ bytes. recalled self.new.past
            ≡ past_after (recalled self.old.past) entry.now) }
        ensures reader { self.new.reader ≡ self.old.reader }
        ensures teller { self.new.teller ≡ self.old.teller }
    {
        let mut bytes = self.teller.lines_of(&self.past, entry)?;
        let before = self.past.unsettled().len() as u64;
        self.past.note(entry)?;
        let count = QueueCount {
            limit: u64::from(self.reader.config().queue_requests),
            before,
            requests: self.past.unsettled().len() as u64,
        };
        let at = moment_of(&entry.change).unwrap_or(0);
        let room = self.teller.room_of(count, at)?;
        bytes.extend_from_slice(room.as_slice())?;
        Ok(bytes)
    }

    /// Writes the lines of an entry, and takes note of it.
    fn tell<K: Sink>(&mut self, entry: &Entry, output: &mut K) -> Result<(), Unlogged>
        ensures past { OnOk result (recalled self.new.past
            ≡ past_after (recalled self.old.past) entry.now) }
        ensures ok { OnOk result (Gains (K.view output.old).taken (K.view output.new).taken
            (lines self.old.teller.form
            (entry_events self.old.reader.config (recalled self.old.past) entry.now))) }
        ensures stopped { IfErr result (λ why. Stopped
            (output_of (K.view output.old).taken (K.view output.old).faults)
            (output_of (K.view output.new).taken (K.view output.new).faults)
            (lines self.old.teller.form
            (entry_events self.old.reader.config (recalled self.old.past) entry.now)) why) }
        ensures faults { (K.view output.old).faults ≤ (K.view output.new).faults }
        ensures reader { self.new.reader ≡ self.old.reader }
        ensures teller { self.new.teller ≡ self.old.teller }
    {
        match self.lines_of(entry) {
            Ok(bytes) => put(bytes.as_slice(), output),
            Err(_) => Err(Unlogged::Memory),
        }
    }

    /// Does what the journal's next calls for. The status where the log ends.
    fn follow<K: Sink>(&mut self, next: Next, output: &mut K) -> Option<u8>
        ensures goes { (old : Start) (now : Input) (before : Output) →
            HasNext old now before (output_of (K.view output.old).taken (K.view output.old).faults) self.old
            next → Steps old now before (output_of (K.view output.new).taken (K.view output.new).faults)
            self.new result }
        ensures stays { (old : Start) (now : Input) (before : Output) (status : ℕ) →
            HasNext old now before (output_of (K.view output.old).taken (K.view output.old).faults) self.old
            next → result ≡ Some status → MayGoOn status → HasLogged old now before
            (output_of (K.view output.new).taken (K.view output.new).faults) self.new }
        ensures reader { self.new.reader ≡ self.old.reader }
        ensures teller { self.new.teller ≡ self.old.teller }
        ensures goes_on { result ≡ None → IsEntry next }
    {
        match next {
            Next::Entry(entry) => match self.tell(&entry, output) {
                Ok(()) => None,
                Err(why) => Some(unlogged_status(why)),
            },
            Next::Ends(ending) => Some(ending_status(ending)),
        }
    }

    /// Reads an entry and writes its lines. The status where the log ends.
    fn step<S: Source, K: Sink>(&mut self, input: &mut S, output: &mut K) -> Option<u8>
        ensures goes { (old : Start) (before : Output) →
            HasLogged old (input_of (S.view input.old).given (S.view input.old).ends (S.view input.old).faults)
            before (output_of (K.view output.old).taken (K.view output.old).faults) self.old →
            Steps old (input_of (S.view input.new).given (S.view input.new).ends (S.view input.new).faults)
            before (output_of (K.view output.new).taken (K.view output.new).faults) self.new result }
        ensures stays { (old : Start) (before : Output) (status : ℕ) →
            HasLogged old (input_of (S.view input.old).given (S.view input.old).ends (S.view input.old).faults)
            before (output_of (K.view output.old).taken (K.view output.old).faults) self.old →
            result ≡ Some status → MayGoOn status → HasLogged old
            (input_of (S.view input.new).given (S.view input.new).ends (S.view input.new).faults)
            before (output_of (K.view output.new).taken (K.view output.new).faults) self.new }
        ensures less { result ≡ None →
            left_of self.new.reader.feed < left_of self.old.reader.feed }
        ensures teller { self.new.teller ≡ self.old.teller }
    {
        match self.reader.next(input) {
            Ok(next) => self.follow(next, output),
            Err(fault) => Some(fault_status(fault)),
        }
    }

    /// Goes on to the end of what is there.
    fn run<S: Source, K: Sink>(&mut self, input: &mut S, output: &mut K) -> u8
        ensures goes { (old : Start) (before : Output) →
            HasLogged old (input_of (S.view input.old).given (S.view input.old).ends (S.view input.old).faults)
            before (output_of (K.view output.old).taken (K.view output.old).faults) self.old →
            LogEnds self.old.teller.form old
            (input_of (S.view input.new).given (S.view input.new).ends (S.view input.new).faults)
            before (output_of (K.view output.new).taken (K.view output.new).faults) result }
        ensures stays { (old : Start) (before : Output) →
            HasLogged old (input_of (S.view input.old).given (S.view input.old).ends (S.view input.old).faults)
            before (output_of (K.view output.old).taken (K.view output.old).faults) self.old →
            MayGoOn result → HasLogged old
            (input_of (S.view input.new).given (S.view input.new).ends (S.view input.new).faults)
            before (output_of (K.view output.new).taken (K.view output.new).faults) self.new }
        ensures teller { self.new.teller ≡ self.old.teller }
    {
        'entries: loop {
            if let Some(status) = self.step(input, output) {
                return status;
            }
        }
    }

    /// Goes on to the end, and behind it after each of so many pauses, where the input may have grown.
    fn follow_on<S: Source, K: Sink, C: Clock>(
        &mut self,
        pauses: u64,
        input: &mut S,
        output: &mut K,
        clock: &mut C,
    ) -> u8
        ensures goes { (old : Start) (before : Output) →
            HasLogged old (input_of (S.view input.old).given (S.view input.old).ends (S.view input.old).faults)
            before (output_of (K.view output.old).taken (K.view output.old).faults) self.old →
            LogEnds self.old.teller.form old
            (input_of (S.view input.new).given (S.view input.new).ends (S.view input.new).faults)
            before (output_of (K.view output.new).taken (K.view output.new).faults) result }
        ensures waits { (old : Start) (before : Output) →
            HasLogged old (input_of (S.view input.old).given (S.view input.old).ends (S.view input.old).faults)
            before (output_of (K.view output.old).taken (K.view output.old).faults) self.old →
            MayGoOn result → HasWaited pauses old.input
            (input_of (S.view input.new).given (S.view input.new).ends (S.view input.new).faults)
            (C.view clock.old) (C.view clock.new) }
    {
        for done in 0..pauses {
            let status = self.run(input, output);
            if !may_go_on(status) {
                return status;
            }
            clock.pause(PAUSE_MS);
            self.reader.go_on();
        }
        self.run(input, output)
    }
}

/// The first line, which says what the moments are.
fn first_line(form: Form) -> &'static [u8]
    ensures { result.now ≡ first_line form }
{
    match form {
        Form::Text => b"# moments are milliseconds since the hub's clock began\n",
        Form::Json => b"{\"moments\":\"milliseconds since the hub's clock began\"}\n",
    }
}

/// Writes the log of a journal whose head was read.
fn log_journal<S: Source, K: Sink, C: Clock>(
    alloc: Global,
    form: Form,
    past: Recall,
    pauses: u64,
    reader: JournalReader,
    input: &mut S,
    output: &mut K,
    clock: &mut C,
) -> u8
    ensures log { (old : Input) → Begins old
        (input_of (S.view input.old).given (S.view input.old).ends (S.view input.old).faults)
        (opened.Journal reader) →
        LogEnds form (start_at (recalled past) old) (input_of (S.view input.new).given (S.view input.new).ends (S.view input.new).faults)
        (output_of (K.view output.old).taken (K.view output.old).faults)
        (output_of (K.view output.new).taken (K.view output.new).faults) result }
    ensures waits { (old : Input) → Begins old
        (input_of (S.view input.old).given (S.view input.old).ends (S.view input.old).faults)
        (opened.Journal reader) → MayGoOn result → HasWaited pauses old
        (input_of (S.view input.new).given (S.view input.new).ends (S.view input.new).faults)
        (C.view clock.old) (C.view clock.new) }
{
    if let Err(why) = put(first_line(form), output) {
        return unlogged_status(why);
    }
    let mut logging = Logging {
        reader,
        past,
        teller: Teller { form, alloc },
    };
    logging.follow_on(pauses, input, output, clock)
}

/// Writes the log of what was opened.
fn log_opened<S: Source, K: Sink, C: Clock>(
    alloc: Global,
    form: Form,
    past: Recall,
    pauses: u64,
    opened: Opened,
    input: &mut S,
    output: &mut K,
    clock: &mut C,
) -> u8
    ensures log { (old : Input) → Begins old
        (input_of (S.view input.old).given (S.view input.old).ends (S.view input.old).faults) opened →
        LogEnds form (start_at (recalled past) old) (input_of (S.view input.new).given (S.view input.new).ends (S.view input.new).faults)
        (output_of (K.view output.old).taken (K.view output.old).faults)
        (output_of (K.view output.new).taken (K.view output.new).faults) result }
    ensures waits { (old : Input) → Begins old
        (input_of (S.view input.old).given (S.view input.old).ends (S.view input.old).faults) opened →
        Waits pauses old (input_of (S.view input.new).given (S.view input.new).ends (S.view input.new).faults)
        (C.view clock.old) (C.view clock.new) result }
{
    match opened {
        Opened::Journal(reader) => {
            log_journal(alloc, form, past, pauses, reader, input, output, clock)
        },
        Opened::Cut => CUT,
        Opened::NotJournal => NOT_JOURNAL,
    }
}

/// Goes on with the log of a journal of which so much is past: reads what comes behind it, which begins with the journal's head,
/// and writes the first line and the lines of these entries alone. The status and the pauses are those of [`log_lines`].
pub fn log_behind<S: Source, K: Sink, C: Clock>(
    alloc: Global,
    form: Form,
    past: Recall,
    pauses: u64,
    input: &mut S,
    output: &mut K,
    clock: &mut C,
) -> u8
    ensures log { LogEnds form (start_at (recalled past)
        (input_of (S.view input.old).given (S.view input.old).ends (S.view input.old).faults))
        (input_of (S.view input.new).given (S.view input.new).ends (S.view input.new).faults)
        (output_of (K.view output.old).taken (K.view output.old).faults)
        (output_of (K.view output.new).taken (K.view output.new).faults) result }
    ensures waits { Waits pauses
        (input_of (S.view input.old).given (S.view input.old).ends (S.view input.old).faults)
        (input_of (S.view input.new).given (S.view input.new).ends (S.view input.new).faults)
        (C.view clock.old) (C.view clock.new) result }
{
    match JournalReader::open(alloc, input) {
        Ok(opened) => log_opened(alloc, form, past, pauses, opened, input, output, clock),
        Err(fault) => fault_status(fault),
    }
}

/// Reads a journal and writes its log, a line for each event of its entries, in order: the status of a program that does just
/// that. It is 0 where the input is a journal up to its end, 2 where no entry begins behind those that were told, 3 where the
/// input is cut off, in its head or in its last entry, 4 where it is no journal and 9 where it has more bytes than are looked
/// at; 5 where a read failed, 6 where a write failed, and 7 for want of memory. Entries are not checked.
///
/// Where the input ends, it is asked for more after a pause of half a second, so many times in all: only behind the last of
/// them an end of the input is an end of the log. An input that ends inside its head is no journal that grows.
pub fn log_lines<S: Source, K: Sink, C: Clock>(
    alloc: Global,
    form: Form,
    pauses: u64,
    input: &mut S,
    output: &mut K,
    clock: &mut C,
) -> u8
    ensures log { LogEnds form (start_at no_past
        (input_of (S.view input.old).given (S.view input.old).ends (S.view input.old).faults))
        (input_of (S.view input.new).given (S.view input.new).ends (S.view input.new).faults)
        (output_of (K.view output.old).taken (K.view output.old).faults)
        (output_of (K.view output.new).taken (K.view output.new).faults) result }
    ensures waits { Waits pauses
        (input_of (S.view input.old).given (S.view input.old).ends (S.view input.old).faults)
        (input_of (S.view input.new).given (S.view input.new).ends (S.view input.new).faults)
        (C.view clock.old) (C.view clock.new) result }
{
    log_behind(
        alloc,
        form,
        Recall::new(alloc),
        pauses,
        input,
        output,
        clock,
    )
}
