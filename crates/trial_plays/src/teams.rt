//! Blocks of an input, each a connection of a team: what is written for each, and the status.
use crate::messages::{Answered, Asked};
use crate::rows::{CHROME, CREATED, input_of, output_of, texts};
use grid_outside::{MemSink, MemSource, Sink, Source};
use grid_teams_run::teams_run;
use grid_types::{Bytes, Text};
use std::alloc::Global;

/// What is asked on a connection, and what is answered.
#[derive(Clone, Copy)]
struct Block {
    asked: &'static [Asked],
    answered: &'static [Answered],
}

/// Words, blocks, what comes behind these, and the status.
#[derive(Clone, Copy)]
struct Row {
    words: &'static [&'static str],
    blocks: &'static [Block],
    rest: &'static [u8],
    status: u8,
}

/// Two teams of a slot each.
const TEAMS: &[&str] = &["teams", "red", "chrome", "1", "blue", "chrome", "1"];

/// A New Session of each team, and one of none.
const RED: &[Asked] = &[Asked::Bytes(
    b"POST /session HTTP/1.1\r\nHost: h\r\nGrid-Team: red\r\nContent-Length: 57\r\n\r\n{\"capabilities\":{\"alwaysMatch\":{\"browserName\":\"chrome\"}}}",
)];

const BLUE: &[Asked] = &[Asked::Bytes(
    b"POST /session HTTP/1.1\r\nHost: h\r\nGrid-Team: blue\r\nContent-Length: 57\r\n\r\n{\"capabilities\":{\"alwaysMatch\":{\"browserName\":\"chrome\"}}}",
)];

const NOBODY: &[Asked] = &[Asked::New(CHROME)];

/// A hub's first session.
const FIRST: &[Answered] = &[Answered::Success(CREATED)];

/// A hub's second request, which found no slot.
const TIMED_OUT: &[Answered] = &[Answered::Error(
    "500 Internal Server Error",
    "session not created",
    "request 2 timed out",
)];

/// What is told a head without a team.
const NOT_NAMED: &[Answered] = &[Answered::LastError(
    "400 Bad Request",
    "invalid argument",
    "no team is named",
)];

/// Each team has a slot, requests and sessions of its own. An input can end inside a length, and a length can be too long.
const ROWS: &[Row] = &[
    Row {
        words: TEAMS,
        blocks: &[
            Block {
                asked: RED,
                answered: FIRST,
            },
            Block {
                asked: RED,
                answered: TIMED_OUT,
            },
            Block {
                asked: BLUE,
                answered: FIRST,
            },
        ],
        rest: b"",
        status: 0,
    },
    Row {
        words: TEAMS,
        blocks: &[
            Block {
                asked: NOBODY,
                answered: NOT_NAMED,
            },
            Block {
                asked: BLUE,
                answered: FIRST,
            },
        ],
        rest: b"",
        status: 0,
    },
    Row {
        words: TEAMS,
        blocks: &[],
        rest: b"abc",
        status: 10,
    },
    Row {
        words: TEAMS,
        blocks: &[Block {
            asked: BLUE,
            answered: FIRST,
        }],
        rest: &[1, 0, 0, 1],
        status: 11,
    },
    Row {
        words: &["teams", "Red", "chrome", "1"],
        blocks: &[],
        rest: b"abc",
        status: 2,
    },
];

/// Puts a block last, behind its length, greatest byte first. No block here has 65,536 bytes.
fn put(bytes: &mut Vec<u8>, block: &[u8]) -> Option<()> {
    let size = block.len();
    let length = [0, 0, (size / 256 % 256) as u8, (size % 256) as u8];
    bytes.extend_from_slice(&length).ok()?;
    bytes.extend_from_slice(block).ok()
}

fn put_asked(alloc: Global, bytes: &mut Vec<u8>, blocks: &[Block]) -> Option<()> {
    for block in blocks {
        let asked = input_of(alloc, block.asked)?;
        let put = put(bytes, asked.as_slice());
        drop(asked);
        put?;
    }
    Some(())
}

fn put_answered(alloc: Global, bytes: &mut Vec<u8>, blocks: &[Block]) -> Option<()> {
    for block in blocks {
        let answered = output_of(alloc, block.answered)?;
        let put = put(bytes, answered.as_slice());
        drop(answered);
        put?;
    }
    Some(())
}

/// The status over any ends, of which a trial asks no clause.
fn status_of<S: Source, K: Sink>(
    alloc: Global,
    words: &[Text],
    source: &mut S,
    sink: &mut K,
) -> u8 {
    teams_run(alloc, words, source, sink)
}

// Let go by a call: the check of a value that ends by itself writes out all its fields.
fn comes_by(
    alloc: Global,
    words: &[Text],
    wanted: u8,
    input: &[u8],
    output: &[u8],
) -> Option<bool> {
    let mut source = MemSource::new(Bytes::of(alloc, input).ok()?, 1_000, Vec::new(alloc));
    let mut sink = MemSink::new(alloc, 1_000, Vec::new(alloc));
    let status = status_of(alloc, words, &mut source, &mut sink);
    let is_so = status == wanted && sink.taken() == output;
    drop(source);
    drop(sink);
    Some(is_so)
}

/// Whether the row's run over this input comes to its status, and writes this.
fn comes_to(alloc: Global, row: &Row, input: &[u8], output: &[u8]) -> Option<bool> {
    let words = texts(alloc, row.words)?;
    let is_so = comes_by(alloc, words.as_slice(), row.status, input, output);
    drop(words);
    is_so
}

// Borrows both, so that no early return drops them.
fn goes(alloc: Global, row: &Row, input: &mut Vec<u8>, output: &mut Vec<u8>) -> Option<bool> {
    put_asked(alloc, input, row.blocks)?;
    put_answered(alloc, output, row.blocks)?;
    input.extend_from_slice(row.rest).ok()?;
    comes_to(alloc, row, input.as_slice(), output.as_slice())
}

fn all_go(alloc: Global, rows: &[Row]) -> bool {
    for row in rows {
        let so = goes(alloc, row, &mut Vec::new(alloc), &mut Vec::new(alloc));
        if so != Some(true) {
            return false;
        }
    }
    true
}

#[test]
fn blocks_are_answered_by_their_teams(rt: HostRuntime) {
    assert!(rt; all_go(rt.alloc(), ROWS));
}
