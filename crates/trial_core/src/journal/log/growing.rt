//! A journal that grows while it is read, and one of which a part is past.
ghost use Rattle.std.specs.Prelude.{◌≡◌, None};

use crate::journal::log::logs::{HEAD, put_all, sink, source, status_of, words_of};
use grid_log::{Form, Recall, log_behind, log_lines};
use grid_outside::{Clock, Failed, MemClock, MemSink, MemSource, Sink, Source};
use grid_types::{Change, Entry, Moment, Text};
use std::alloc::Global;

/// Gives what the first source has, tells one end, and then gives what the second has.
#[derive(Drop)]
struct Growing {
    first: MemSource,
    second: MemSource,
    has_grown: bool,
    ends: u64,
    faults: u64,
}

impl Source for Growing {
    ghost view = { λ s. record { given = None; ends = s.ends; faults = s.faults } };

    fn read(&mut self, into: &mut [u8]) -> Result<usize, Failed> {
        let found = if self.has_grown {
            self.second.read(into)
        } else {
            self.first.read(into)
        };
        match found {
            Ok(0) => {
                self.has_grown = true;
                self.ends = self.ends.saturating_add(1);
                Ok(0)
            }
            Ok(count) => Ok(count),
            Err(_) => {
                self.faults = self.faults.saturating_add(1);
                Err(Failed)
            }
        }
    }
}

/// The journal of a suspicion that is over: 57 bytes are the head and 21 the first entry.
const JOURNAL: &[u8] =
    b"GRIDJ001\0\0\0\0\0\x04\x93\xe0\0\0\0\0\0\x04\x93\xe0\0\0\0\0\0\x01\xd4\xc0\0\0'\x10\0\0\0\0\x01\0\0\0\0\0\0\0\x01\0\0\0\0\0\x03\xa9\x80\0\0\0\0\0\0\0\x03\x10\0\0\0\x01\0\0\0\0\0\0\0\x05\0\0\0\0\0\0\0\x03\x02\0\0\0\x01\0\0\0\0\0\0\0\x09";

/// What both entries tell behind the first line, and the first alone.
const BOTH: &[u8] =
    b"# moments are milliseconds since the hub's clock began\n5 node suspect node=1 meaning=\"no sign of life for long: it gets no new sessions until it gives one\"\n9 node back node=1 meaning=\"it gave a sign of life\"\n";

const ONE: &[u8] =
    b"# moments are milliseconds since the hub's clock began\n5 node suspect node=1 meaning=\"no sign of life for long: it gets no new sessions until it gives one\"\n";

/// How many bytes are there at first, which reads of the others fail, how many pauses there may be (none is said where the word
/// `--follow` asks for them), the status, how many pauses there were, and what is written.
type Row = (usize, &'static [u64], Option<u64>, u8, u64, &'static [u8]);

/// The input ends behind the first entry and in the midst of the second; without a pause the log ends there too. Where the word asks,
/// a read fails behind the second entry.
const ROWS: &[Row] = &[
    (78, &[], Some(2), 0, 2, BOTH),
    (80, &[], Some(1), 0, 1, BOTH),
    (78, &[], Some(0), 0, 0, ONE),
    (80, &[], Some(0), 3, 0, ONE),
    (78, &[1], None, 5, 1, BOTH),
];

/// The status of a log with so many pauses, of which a trial asks no clause.
fn status_by<S: Source, K: Sink, C: Clock>(
    alloc: Global,
    words: &[Text],
    pauses: Option<u64>,
    input: &mut S,
    output: &mut K,
    clock: &mut C,
) -> u8 {
    match pauses {
        Some(pauses) => log_lines(alloc, Form::Text, pauses, input, output, clock),
        None => status_of(alloc, words, input, output, clock),
    }
}

fn grown(alloc: Global, count: usize, fails: &[u64]) -> Option<Growing> {
    let first = source(alloc, JOURNAL.get(..count)?, &[])?;
    let second = source(alloc, JOURNAL.get(count..)?, fails)?;
    Some(Growing {
        first,
        second,
        has_grown: false,
        ends: 0,
        faults: 0,
    })
}

fn goes(alloc: Global, words: &[Text], row: &Row) -> Option<bool> {
    let (count, fails, pauses, status, paused, told) = *row;
    let mut input = grown(alloc, count, fails)?;
    let mut output = sink(alloc, &[])?;
    let mut clock = MemClock::new(Moment(0));
    let found = status_by(alloc, words, pauses, &mut input, &mut output, &mut clock);
    let waited = clock.pauses() == paused && clock.paused_ms() == paused.saturating_mul(500);
    Some(found == status && waited && output.taken() == told)
}

fn all_go(alloc: Global, words: &[Text], rows: &[Row]) -> Option<bool> {
    for row in rows {
        if !goes(alloc, words, row)? {
            return Some(false);
        }
    }
    Some(true)
}

#[test]
fn a_log_goes_on_where_its_input_grows(rt: HostRuntime) {
    let so = match words_of(rt.alloc(), &["--follow"]) {
        Some(words) => all_go(rt.alloc(), words.as_slice(), ROWS),
        None => None,
    };
    assert!(rt; so == Some(true));
}

/// The second entry alone, behind the head.
const LATER: &[&[u8]] = &[HEAD, b"\0\0\0\0\0\0\0\x03\x02\0\0\0\x01\0\0\0\0\0\0\0\x09"];

const BACK: &[u8] =
    b"# moments are milliseconds since the hub's clock began\n9 node back node=1 meaning=\"it gave a sign of life\"\n";

/// The status of the log of what comes behind the first entry.
fn status_behind<S: Source, K: Sink, C: Clock>(
    alloc: Global,
    input: &mut S,
    output: &mut K,
    clock: &mut C,
) -> Option<u8> {
    let mut past = Recall::new(alloc);
    let first = Entry {
        caller: 3,
        change: Change::Suspected {
            node: 1,
            at: Moment(5),
        },
    };
    match past.note(&first) {
        Ok(()) => Some(log_behind(alloc, Form::Text, past, 0, input, output, clock)),
        Err(_) => None,
    }
}

fn goes_behind(alloc: Global, journal: &mut Vec<u8>) -> Option<bool> {
    if !put_all(journal, LATER) {
        return None;
    }
    let mut input = source(alloc, journal.as_slice(), &[])?;
    let mut output: MemSink = sink(alloc, &[])?;
    let mut clock = MemClock::new(Moment(0));
    let found = status_behind(alloc, &mut input, &mut output, &mut clock)?;
    Some(found == 0 && output.taken() == BACK)
}

#[test]
fn a_log_goes_on_behind_what_is_past(rt: HostRuntime) {
    let so = goes_behind(rt.alloc(), &mut Vec::new(rt.alloc()));
    assert!(rt; so == Some(true));
}
