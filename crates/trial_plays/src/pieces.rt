//! Input and output in pieces, and input that is cut off.
ghost use Rattle.std.specs.Prelude.{◌≡◌, ℕ, ◌<◌, ◌≤◌, length, None};

use crate::messages::{Answered, Asked};
use crate::rows::{CHROME, CREATED, comes_to, input_of, output_of, status_of, texts};
use grid_outside::{Failed, MemSink, Source};
use grid_types::Text;
use std::alloc::Global;

const ONE: &[&str] = &["play", "chrome", "1"];

/// Whether the input is answered so over pieces of each size from 1 to 112 bytes each way.
fn are_all_answered(alloc: Global, input: &[u8], expected: &[u8]) -> bool {
    for piece in 1..113 {
        if !comes_to(alloc, ONE, input, piece, 0, expected) {
            return false;
        }
    }
    true
}

/// Whether an input that is cut there is answered so: what is whole is answered, and a request that is cut is not.
fn is_answered_to(alloc: Global, input: &[u8], cut: usize, expected: &[u8]) -> bool {
    let answered: &[u8] = if cut < 112 { &[] } else { expected };
    match input.get(..cut) {
        Some(front) => comes_to(alloc, ONE, front, 37, 0, answered),
        None => false,
    }
}

fn are_answered_to(alloc: Global, input: &[u8], expected: &[u8]) -> bool {
    for cut in 0..224 {
        if !is_answered_to(alloc, input, cut, expected) {
            return false;
        }
    }
    true
}

/// Gives the bytes before the cut at once, then those behind it, and then its end. It tells nothing of them.
#[derive(Drop)]
struct Halves {
    bytes: Vec<u8>,
    at: usize,
    cut: usize,
    ends: u64,
}

impl Halves {
    /// The bytes that the next read gives.
    fn next(&self) -> &[u8] {
        let bytes = self.bytes.as_slice();
        let last = if self.at < self.cut {
            self.cut
        } else {
            bytes.len()
        };
        bytes.get(self.at..last).unwrap_or(b"")
    }
}

impl Source for Halves {
    ghost view = { λ s. record { given = None; ends = s.ends; faults = 0 } };

    fn read(&mut self, into: &mut [u8]) -> Result<usize, Failed> {
        let next = self.next();
        let count = into.len().min(next.len());
        let front = &mut into[..count];
        front.copy_from_slice(&next[..count]);
        self.at = self.at.saturating_add(count);
        if count == 0 {
            self.ends = self.ends.saturating_add(1);
        }
        Ok(count)
    }
}

fn two_of(alloc: Global, input: &[u8], cut: usize) -> Option<Halves> {
    Some(Halves {
        bytes: input.to_vec(alloc).ok()?,
        at: 0,
        cut,
        ends: 0,
    })
}

/// Whether the request that comes in two pieces, cut there, is answered so.
fn is_answered_in_halves(
    alloc: Global,
    words: &[Text],
    input: &[u8],
    cut: usize,
    expected: &[u8],
) -> Option<bool> {
    let mut source = two_of(alloc, input, cut)?;
    let mut output = MemSink::new(alloc, 1_000, Vec::new(alloc));
    let status = status_of(alloc, words, &mut source, &mut output);
    let is_so = status == 0 && output.taken() == expected;
    drop(source);
    drop(output);
    Some(is_so)
}

fn are_answered_in_halves(alloc: Global, words: &[Text], input: &[u8], expected: &[u8]) -> bool {
    for cut in 1..112 {
        if is_answered_in_halves(alloc, words, input, cut, expected) != Some(true) {
            return false;
        }
    }
    true
}

fn are_halves(alloc: Global, input: &[u8], expected: &[u8]) -> Option<bool> {
    let words = texts(alloc, ONE)?;
    let is_so = are_answered_in_halves(alloc, words.as_slice(), input, expected);
    drop(words);
    Some(is_so)
}

/// A New Session takes 112 bytes.
fn all_do(alloc: Global, input: &[u8], expected: &[u8]) -> Option<bool> {
    let first = input.get(..112)?;
    Some(
        are_all_answered(alloc, first, expected)
            && are_answered_to(alloc, input, expected)
            && are_halves(alloc, first, expected)?,
    )
}

fn any_pieces_do(alloc: Global) -> Option<bool> {
    let input = input_of(alloc, &[Asked::New(CHROME), Asked::New(CHROME)])?;
    let expected = output_of(alloc, &[Answered::Success(CREATED)])?;
    let is_so = all_do(alloc, input.as_slice(), expected.as_slice());
    drop(input);
    drop(expected);
    is_so
}

#[test]
fn any_pieces_give_the_same(rt: HostRuntime) {
    assert!(rt; any_pieces_do(rt.alloc()) == Some(true));
}
