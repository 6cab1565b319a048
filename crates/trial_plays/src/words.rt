//! Words that do not fit, and those of a simulation.
use crate::rows::{comes_to, played};
use grid_outside::MemSink;
use std::alloc::Global;

const REFUSED: &[&[&str]] = &[
    &[],
    &["play"],
    &["play", "chrome", "0"],
    &["play", "chrome", "01"],
    &["play", "chrome", "65"],
    &["simulate", "01"],
    &["simulate"],
    &["simulate", "18446744073709551616"],
    &["play", "chrome", "1", "--session-request-timeout", "0"],
];

/// Whether the words are refused, and nothing is written.
fn are_refused(alloc: Global, rows: &[&[&str]]) -> bool {
    for words in rows {
        if !comes_to(alloc, words, b"unread", 37, 2, b"") {
            return false;
        }
    }
    true
}

#[test]
fn other_words_are_refused(rt: HostRuntime) {
    assert!(rt; are_refused(rt.alloc(), REFUSED));
}

/// Of the queued requests each was created, timed out, refused or cleared, or it waits: 178 + 288 + 1 + 205 + 18.
const SUMMARY: &str =
    "simulate 7\nqueued 690\ncreated 178\ntimed out 288\nrefused 1\ncleared 205\nwaiting 18\nretried 39\nended 160\nlapsed 0\nlive 18\n";

/// Whether the words come to that status where these writes fail, and so many bytes of the summary are written. Nothing is read.
fn is_summed_up(alloc: Global, writes: &[u64], status: u8, count: usize) -> Option<bool> {
    let mut output = MemSink::new(alloc, 11, writes.to_vec(alloc).ok()?);
    let words: &[&str] = &["simulate", "7"];
    let found = played(alloc, words, b"unread", 37, &[0], &mut output);
    let is_so = found == Some(status) && Some(output.taken()) == SUMMARY.as_bytes().get(..count);
    drop(output);
    Some(is_so)
}

#[test]
fn a_summary_is_written(rt: HostRuntime) {
    let whole = is_summed_up(rt.alloc(), &[], 0, SUMMARY.len());
    let front = is_summed_up(rt.alloc(), &[1], 4, 11);
    assert!(rt; whole == Some(true) && front == Some(true));
}
