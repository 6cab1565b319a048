//! A read or a write that fails.
use crate::messages::{Answered, Asked};
use crate::rows::{CHROME, CREATED, input_of, output_of, played};
use grid_outside::MemSink;
use std::alloc::Global;

/// How many bytes a read gives, which reads and writes fail, the status, and how many bytes of the response are written. A write takes
/// ten.
type Row = (usize, &'static [u64], &'static [u64], u8, usize);

/// A New Session takes 112 bytes, and its response 262. A request that is whole is answered before the read that fails.
const ROWS: &[Row] = &[
    (37, &[0], &[], 3, 0),
    (112, &[1], &[], 3, 262),
    (37, &[], &[0], 4, 0),
    (37, &[], &[1], 4, 10),
];

fn fails(alloc: Global, input: &[u8], expected: &[u8], row: &Row) -> Option<bool> {
    let (piece, reads, writes, status, count) = *row;
    if piece == 0 {
        return None;
    }
    let mut output = MemSink::new(alloc, 10, writes.to_vec(alloc).ok()?);
    let words: &[&str] = &["play", "chrome", "1"];
    let found = played(alloc, words, input, piece, reads, &mut output);
    let is_so = found == Some(status) && Some(output.taken()) == expected.get(..count);
    drop(output);
    Some(is_so)
}

fn each_fails(alloc: Global, input: &[u8], expected: &[u8], rows: &[Row]) -> bool {
    for row in rows {
        if fails(alloc, input, expected, row) != Some(true) {
            return false;
        }
    }
    true
}

fn all_fail(alloc: Global, rows: &[Row]) -> Option<bool> {
    let input = input_of(alloc, &[Asked::New(CHROME)])?;
    let expected = output_of(alloc, &[Answered::Success(CREATED)])?;
    let is_so = each_fails(alloc, input.as_slice(), expected.as_slice(), rows);
    let count = expected.len();
    drop(input);
    drop(expected);
    Some(is_so && count == 262)
}

#[test]
fn a_failed_read_or_write_is_told(rt: HostRuntime) {
    assert!(rt; all_fail(rt.alloc(), ROWS) == Some(true));
}
