//! How a log ends.
use crate::journal::log::logs::{FIRST, Run, goes};
use std::alloc::Global;

/// The journal of a suspicion that is over, of which nothing is told: 57 bytes are the head, 21 the entry. Behind it stand nine bytes
/// that begin no entry.
const WORSE: &[u8] =
    b"GRIDJ001\0\0\0\0\0\x04\x93\xe0\0\0\0\0\0\x04\x93\xe0\0\0\0\0\0\x01\xd4\xc0\0\0'\x10\0\0\0\0\x01\0\0\0\0\0\0\0\x01\0\0\0\0\0\x03\xa9\x80\0\0\0\0\0\0\0\x03\x02\0\0\0\x01\0\0\0\0\0\0\0\x05\0\0\0\0\0\0\0\0\x11";

/// A text that is no journal.
const OTHER: &[u8] = b"GRIDJ002";

/// What fails, and what comes of the first bytes, so many.
type End = (
    &'static [u8],
    usize,
    &'static [u64],
    &'static [u64],
    u8,
    &'static str,
);

/// The whole, cut in its entry and in its head, and what is none; a read of the head and one of the entry fails, and the second
/// write.
const ENDS: &[End] = &[
    (WORSE, 87, &[], &[], 2, FIRST),
    (WORSE, 78, &[], &[], 0, FIRST),
    (WORSE, 77, &[], &[], 3, FIRST),
    (WORSE, 58, &[], &[], 3, FIRST),
    (WORSE, 57, &[], &[], 0, FIRST),
    (WORSE, 56, &[], &[], 3, ""),
    (WORSE, 0, &[], &[], 3, ""),
    (OTHER, 8, &[], &[], 4, ""),
    (WORSE, 78, &[0], &[], 5, ""),
    (WORSE, 78, &[3], &[], 5, FIRST),
    (WORSE, 78, &[], &[1], 6, "# moments are milli"),
];

fn ends_so(alloc: Global, words: &[&str], end: &End) -> Option<bool> {
    let (bytes, count, reads_fail, writes_fail, status, told) = *end;
    goes(
        alloc,
        &Run {
            words,
            journal: bytes.get(..count)?,
            reads_fail,
            writes_fail,
            status,
            told: told.as_bytes(),
        },
    )
}

fn all_end_so(alloc: Global, ends: &[End]) -> Option<bool> {
    for end in ends {
        if !ends_so(alloc, &[], end)? {
            return Some(false);
        }
    }
    Some(true)
}

/// Words of another program.
const OTHER_WORDS: &[&[&str]] = &[
    &["--jso"],
    &["--json", "--json"],
    &["--json", "--follow"],
    &["--follow", "--follow"],
    &["--metrics", "--page"],
    &["--metric"],
    &["text"],
];

/// Nothing is read or written.
const UNTOUCHED: End = (WORSE, 78, &[0], &[0], 8, "");

fn all_are_refused(alloc: Global, rows: &[&[&str]]) -> Option<bool> {
    for words in rows {
        if !ends_so(alloc, words, &UNTOUCHED)? {
            return Some(false);
        }
    }
    Some(true)
}

#[test]
fn the_status_says_how_a_log_ends(rt: HostRuntime) {
    let so = all_end_so(rt.alloc(), ENDS);
    assert!(rt; so == Some(true));
    let so = all_are_refused(rt.alloc(), OTHER_WORDS);
    assert!(rt; so == Some(true));
}
