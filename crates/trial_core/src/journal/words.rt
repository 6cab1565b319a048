//! The words of the program over an input and an output in memory.
use grid_check::check_main;
use grid_outside::{MemSink, MemSource, Sink, Source};
use grid_types::{Bytes, Text};
use std::alloc::Global;

/// The head of a journal with the usual configuration.
const HEAD: &[u8] =
    b"GRIDJ001\0\0\0\0\0\x04\x93\xe0\0\0\0\0\0\x04\x93\xe0\0\0\0\0\0\x01\xd4\xc0\0\0\x27\x10\0\0\0\0\x01\0\0\0\0\0\0\0\x01\0\0\0\0\0\x03\xa9\x80";

/// Behind it the entry that caller 0 frees slot 0 of node 1.
const FREED: &[u8] =
    b"GRIDJ001\0\0\0\0\0\x04\x93\xe0\0\0\0\0\0\x04\x93\xe0\0\0\0\0\0\x01\xd4\xc0\0\0\x27\x10\0\0\0\0\x01\0\0\0\0\0\0\0\x01\0\0\0\0\0\x03\xa9\x80\0\0\0\0\0\0\0\0\x0f\0\0\0\x01\0\0";

/// The head of a simulation's journal: a request waits for a minute, and there may be 50.
const MADE: &[u8] =
    b"GRIDJ001\0\0\0\0\0\0\xea\x60\0\0\0\0\0\x04\x93\xe0\0\0\0\0\0\x01\xd4\xc0\0\0\0\x32\0\0\0\0\x01\0\0\0\0\0\0\0\x01\0\0\0\0\0\x03\xa9\x80";

/// What words come to over an input, where the calls with these numbers fail.
#[derive(Clone, Copy)]
struct Row {
    words: &'static [&'static str],
    input: &'static [u8],
    reads: &'static [u64],
    writes: &'static [u64],
    status: u8,
    written: &'static [u8],
}

const ROWS: &[Row] = &[
    Row {
        words: &["check"],
        input: HEAD,
        reads: &[],
        writes: &[],
        status: 0,
        written: b"legal: 0 entries\n",
    },
    Row {
        words: &["check"],
        input: FREED,
        reads: &[],
        writes: &[],
        status: 1,
        written: b"illegal: entry 0\n",
    },
    Row {
        words: &["check"],
        input: HEAD,
        reads: &[1],
        writes: &[],
        status: 5,
        written: b"",
    },
    Row {
        words: &["check"],
        input: HEAD,
        reads: &[],
        writes: &[0],
        status: 6,
        written: b"",
    },
    Row {
        words: &["make", "7"],
        input: b"",
        reads: &[0],
        writes: &[0],
        status: 6,
        written: b"",
    },
    Row {
        words: &["make", "7"],
        input: b"",
        reads: &[0],
        writes: &[1],
        status: 6,
        written: b"GRIDJ0",
    },
    Row {
        words: &["make", "7"],
        input: b"",
        reads: &[0],
        writes: &[10],
        status: 6,
        written: MADE,
    },
    Row {
        words: &[],
        input: HEAD,
        reads: &[],
        writes: &[],
        status: 8,
        written: b"",
    },
    Row {
        words: &["check", "7"],
        input: HEAD,
        reads: &[],
        writes: &[],
        status: 8,
        written: b"",
    },
    Row {
        words: &["make"],
        input: HEAD,
        reads: &[],
        writes: &[],
        status: 8,
        written: b"",
    },
    Row {
        words: &["make", "07"],
        input: HEAD,
        reads: &[],
        writes: &[],
        status: 8,
        written: b"",
    },
    Row {
        words: &["make", "+7"],
        input: HEAD,
        reads: &[],
        writes: &[],
        status: 8,
        written: b"",
    },
    Row {
        words: &["make", "18446744073709551616"],
        input: HEAD,
        reads: &[],
        writes: &[],
        status: 8,
        written: b"",
    },
];

fn put_words(alloc: Global, texts: &mut Vec<Text>, words: &[&str]) -> Option<()> {
    for word in words {
        texts.push(Text::of(alloc, word).ok()?).ok()?;
    }
    Some(())
}

/// The status, of which a trial asks no clause.
fn status_of<S: Source, K: Sink>(
    alloc: Global,
    words: &[Text],
    input: &mut S,
    output: &mut K,
) -> u8 {
    check_main(alloc, words, input, output)
}

// Let go by a call: the check of a value that ends by itself writes out all its fields.
fn came_over(
    alloc: Global,
    words: &[&str],
    source: &mut MemSource,
    output: &mut MemSink,
) -> Option<u8> {
    let mut texts = Vec::new(alloc);
    let put = put_words(alloc, &mut texts, words);
    let status = match put {
        Some(()) => Some(status_of(alloc, texts.as_slice(), source, output)),
        None => None,
    };
    drop(texts);
    status
}

/// The status of the words. What is written goes to the output.
fn came(
    alloc: Global,
    words: &[&str],
    input: &[u8],
    reads: &[u64],
    output: &mut MemSink,
) -> Option<u8> {
    let bytes = Bytes::of(alloc, input).ok()?;
    let mut source = MemSource::new(bytes, 50, reads.to_vec(alloc).ok()?);
    let status = came_over(alloc, words, &mut source, output);
    drop(source);
    status
}

fn holds(alloc: Global, row: &Row) -> Option<bool> {
    let mut output = MemSink::new(alloc, 6, row.writes.to_vec(alloc).ok()?);
    let status = came(alloc, row.words, row.input, row.reads, &mut output);
    let is_so = status == Some(row.status) && output.taken() == row.written;
    drop(output);
    Some(is_so)
}

fn all_hold(alloc: Global, rows: &[Row]) -> bool {
    for row in rows {
        if holds(alloc, row) != Some(true) {
            return false;
        }
    }
    true
}

#[test]
fn words_come_to_what_they_say(rt: HostRuntime) {
    assert!(rt; all_hold(rt.alloc(), ROWS));
}

fn is_made(alloc: Global, journal: &mut MemSink) -> bool {
    came(alloc, &["make", "7"], &[], &[0], journal) == Some(0)
}

fn is_legal(alloc: Global, journal: &[u8], line: &mut MemSink) -> bool {
    came(alloc, &["check"], journal, &[], line) == Some(0)
        && line.taken() == b"legal: 4083 entries\n".as_slice()
}

#[test]
fn a_journal_that_is_made_is_legal(rt: HostRuntime) {
    let alloc = rt.alloc();
    let mut journal = MemSink::new(alloc, 1_000, Vec::new(alloc));
    assert!(rt; is_made(alloc, &mut journal));
    let mut line = MemSink::new(alloc, 1_000, Vec::new(alloc));
    assert!(rt; is_legal(alloc, journal.taken(), &mut line));
}
