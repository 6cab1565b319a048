//! A connection as a row: the words, what is asked, what is answered, and the status.
ghost use Rattle.std.specs.Prelude.{◌<◌};

use crate::messages::{Answered, Asked, answer, ask};
use crate::nodes::NODES;
use crate::requests::REQUESTS;
use crate::sessions::SESSIONS;
use grid_outside::{MemSink, MemSource, Sink, Source};
use grid_play::run;
use grid_types::{Bytes, Text};
use std::alloc::Global;

/// A connection.
#[derive(Clone, Copy)]
pub struct Row {
    pub words: &'static [&'static str],
    pub asked: &'static [Asked],
    pub answered: &'static [Answered],
}

/// A session's body, whose node has this browser's name and whose session this id.
pub const CREATED: &str =
    "{\"value\":{\"sessionId\":\"00000000-0000-0001-0000-000000000001\",\"capabilities\":{\"browserName\":\"chrome\",\"browserVersion\":\"126.0\",\"platformName\":\"linux\"}}}";

/// What nearly each New Session asks for.
pub const CHROME: &str = "{\"capabilities\":{\"alwaysMatch\":{\"browserName\":\"chrome\"}}}";

/// A New Session for Firefox.
pub const FIREFOX: &str = "{\"capabilities\":{\"alwaysMatch\":{\"browserName\":\"firefox\"}}}";

/// A success without a value.
pub const NOTHING: &str = "{\"value\":null}";

fn put_texts(alloc: Global, texts: &mut Vec<Text>, words: &[&str]) -> Option<()> {
    for word in words {
        texts.push(Text::of(alloc, word).ok()?).ok()?;
    }
    Some(())
}

// Let go by a call: the check of a value that ends by itself writes out all its fields.
/// The words as texts.
pub fn texts(alloc: Global, words: &[&str]) -> Option<Vec<Text>> {
    let mut texts = Vec::new(alloc);
    match put_texts(alloc, &mut texts, words) {
        Some(()) => Some(texts),
        None => {
            drop(texts);
            None
        }
    }
}

/// The bytes that are asked.
pub fn input_of(alloc: Global, asked: &[Asked]) -> Option<Vec<u8>> {
    let mut bytes = Vec::new(alloc);
    for one in asked {
        ask(alloc, &mut bytes, one)?;
    }
    Some(bytes)
}

/// The bytes that are answered.
pub fn output_of(alloc: Global, answered: &[Answered]) -> Option<Vec<u8>> {
    let mut bytes = Vec::new(alloc);
    for one in answered {
        answer(alloc, &mut bytes, one)?;
    }
    Some(bytes)
}

/// The status over any ends, of which a trial asks no clause.
pub fn status_of<S: Source, K: Sink>(
    alloc: Global,
    words: &[Text],
    source: &mut S,
    output: &mut K,
) -> u8 {
    run(alloc, words, source, output)
}

fn played_over(
    alloc: Global,
    words: &[&str],
    source: &mut MemSource,
    output: &mut MemSink,
) -> Option<u8> {
    let words = texts(alloc, words)?;
    let status = status_of(alloc, words.as_slice(), source, output);
    drop(words);
    Some(status)
}

/// The status for these words over this input, of which so many bytes come at once. None is out of memory, as everywhere here.
pub fn played(
    alloc: Global,
    words: &[&str],
    input: &[u8],
    piece: usize,
    failing_reads: &[u64],
    output: &mut MemSink,
) -> Option<u8>
    requires { 0 < piece }
{
    let bytes = Bytes::of(alloc, input).ok()?;
    let mut source = MemSource::new(bytes, piece, failing_reads.to_vec(alloc).ok()?);
    let status = played_over(alloc, words, &mut source, output);
    drop(source);
    status
}

/// Whether these words come to that status over an input that comes in pieces of so many bytes, and write this.
pub fn comes_to(
    alloc: Global,
    words: &[&str],
    input: &[u8],
    piece: usize,
    status: u8,
    written: &[u8],
) -> bool
    requires { 0 < piece }
{
    let mut output = MemSink::new(alloc, piece, Vec::new(alloc));
    let found = played(alloc, words, input, piece, &[], &mut output);
    let is_so = found == Some(status) && output.taken() == written;
    drop(output);
    is_so
}

/// Whether the row's connection is answered so, with status 0.
fn holds(alloc: Global, row: &Row) -> Option<bool> {
    let input = input_of(alloc, row.asked)?;
    let expected = output_of(alloc, row.answered)?;
    let is_so = comes_to(
        alloc,
        row.words,
        input.as_slice(),
        1_000,
        0,
        expected.as_slice(),
    );
    drop(input);
    drop(expected);
    Some(is_so)
}

fn all_hold(alloc: Global, rows: &[Row]) -> bool {
    for row in rows {
        if holds(alloc, row) != Some(true) {
            return false;
        }
    }
    true
}

#[test]
fn connections_are_answered(rt: HostRuntime) {
    assert!(rt; all_hold(rt.alloc(), REQUESTS));
    assert!(rt; all_hold(rt.alloc(), SESSIONS));
    assert!(rt; all_hold(rt.alloc(), NODES));
}
