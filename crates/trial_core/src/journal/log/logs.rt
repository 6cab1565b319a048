//! One run of the log of a journal.
use grid_outside::{Clock, MemClock, MemSink, MemSource, Sink, Source};
use grid_report::report_main;
use grid_types::{Bytes, Moment, Text};
use std::alloc::Global;

/// The head of a journal with the usual configuration.
pub(crate) const HEAD: &[u8] =
    b"GRIDJ001\0\0\0\0\0\x04\x93\xe0\0\0\0\0\0\x04\x93\xe0\0\0\0\0\0\x01\xd4\xc0\0\0'\x10\0\0\0\0\x01\0\0\0\0\0\0\0\x01\0\0\0\0\0\x03\xa9\x80";

/// The first line of a log.
pub(crate) const FIRST: &str = "# moments are milliseconds since the hub's clock began\n";

/// The program's words, what is read, which reads and writes fail, and what is to come of it: the status and what is written.
/// Bytes come and go in small pieces.
#[derive(Clone, Copy)]
pub(crate) struct Run<'a> {
    pub(crate) words: &'a [&'a str],
    pub(crate) journal: &'a [u8],
    pub(crate) reads_fail: &'a [u64],
    pub(crate) writes_fail: &'a [u64],
    pub(crate) status: u8,
    pub(crate) told: &'a [u8],
}

pub(crate) fn words_of(alloc: Global, words: &[&str]) -> Option<Vec<Text>> {
    let mut texts = Vec::new(alloc);
    for word in words {
        texts.push(Text::of(alloc, word).ok()?).ok()?;
    }
    Some(texts)
}

pub(crate) fn source(alloc: Global, bytes: &[u8], fails: &[u64]) -> Option<MemSource> {
    let bytes = Bytes::of(alloc, bytes).ok()?;
    Some(MemSource::new(bytes, 23, fails.to_vec(alloc).ok()?))
}

pub(crate) fn sink(alloc: Global, fails: &[u64]) -> Option<MemSink> {
    Some(MemSink::new(alloc, 19, fails.to_vec(alloc).ok()?))
}

/// The status, of which a trial asks no clause.
pub(crate) fn status_of<S: Source, K: Sink, C: Clock>(
    alloc: Global,
    words: &[Text],
    input: &mut S,
    output: &mut K,
    clock: &mut C,
) -> u8 {
    report_main(alloc, words, input, output, clock)
}

fn goes_by(alloc: Global, words: &[Text], run: &Run<'_>) -> Option<bool> {
    let mut input = source(alloc, run.journal, run.reads_fail)?;
    let mut output = sink(alloc, run.writes_fail)?;
    let mut clock = MemClock::new(Moment(0));
    let status = status_of(alloc, words, &mut input, &mut output, &mut clock);
    Some(status == run.status && output.taken() == run.told)
}

/// Whether it goes so. None is out of memory, as everywhere here.
pub(crate) fn goes(alloc: Global, run: &Run<'_>) -> Option<bool> {
    let words = words_of(alloc, run.words)?;
    goes_by(alloc, words.as_slice(), run)
}

/// Whether the whole journal is told so by these words.
pub(crate) fn tells(alloc: Global, words: &[&str], journal: &[u8], told: &str) -> Option<bool> {
    goes(
        alloc,
        &Run {
            words,
            journal,
            reads_fail: &[],
            writes_fail: &[],
            status: 0,
            told: told.as_bytes(),
        },
    )
}

/// Puts them one behind the other.
pub(crate) fn put_all(bytes: &mut Vec<u8>, entries: &[&[u8]]) -> bool {
    for entry in entries {
        if bytes.extend_from_slice(entry).is_err() {
            return false;
        }
    }
    true
}
