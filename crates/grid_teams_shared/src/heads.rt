//! The head at the front of a connection is read.
ghost use Rattle.std.specs.Prelude.{◌≡◌, ◌≤◌, ◌<◌, ℕ, List, true, drop, length};
ghost use Rattle.grid_outside.specs.declared.source.TheConstants.{PIECE_BYTES};
ghost use Rattle.grid_outside.specs.Told.{LinkView};
ghost use Rattle.http_frames.specs.Feeding.{Fed, StandsForSome, awaits_more};
ghost use Rattle.http_frames.specs.declared.frames.FrameLimits.{FrameLimits};
ghost use Rattle.grid_teams_shared.specs.Heads.{IsFront, Reading, ReadsOn, HeadEnded, Awaits, HasNoHead, is_awaited};

use crate::ahead::{Ahead, HeadEnd};
use grid_outside::{Link, PIECE_BYTES};
use http_frames::{FrameFault, FrameReader, ReaderStep};
use std::sync::Wait;

/// What a reader tells of the head at the front of its bytes.
#[derive(Clone, Copy, Debug)]
pub(crate) enum Front {
    Accepted,
    Refused(FrameFault),
    Awaited,
}

fn front_of(reader: &FrameReader) -> Front
    requires { StandsForSome reader.now }
    ensures told { (limits : FrameLimits) (bytes : List ℕ) → Fed limits reader.now bytes →
        IsFront limits bytes result }
    ensures more { is_awaited result ≡ true → awaits_more reader.now ≡ true }
{
    match reader.head() {
        Some(_head) => Front::Accepted,
        None => without_head(reader),
    }
}

/// The same where no head is accepted.
fn without_head(reader: &FrameReader) -> Front
    requires { StandsForSome reader.now }
    ensures told { (limits : FrameLimits) (bytes : List ℕ) → Fed limits reader.now bytes →
        HasNoHead limits bytes → IsFront limits bytes result }
    ensures more { is_awaited result ≡ true → awaits_more reader.now ≡ true }
{
    match reader.step() {
        ReaderStep::Whole(_frame) => Front::Accepted,
        ReaderStep::More { expects: _ } => Front::Awaited,
        ReaderStep::Refused(why) => Front::Refused(why),
    }
}

/// The bytes from the place on.
fn behind(text: &[u8], at: usize) -> &[u8]
    requires { at ≤ length text.now }
    ensures { result.now ≡ drop at text.now }
{
    &text[at..]
}

/// Feeds bytes that were read and not fed yet.
fn feed(ahead: &mut Ahead) -> Option<HeadEnd>
    requires some { ahead.old.fed < length ahead.old.bytes.items }
    requires more { awaits_more ahead.old.reader ≡ true }
    requires stands { StandsForSome ahead.old.reader }
    ensures { (old new : LinkView) → Reading old ahead.old new → ReadsOn old result ahead.new new }
{
    match ahead.reader.feed(behind(ahead.bytes.as_slice(), ahead.fed)) {
        Ok(count) => {
            ahead.fed += count;
            None
        }
        Err(_) => Some(HeadEnd::NoMemory),
    }
}

/// Reads a piece.
fn read<L: Link>(link: &mut L, ahead: &mut Ahead, buffer: &mut [u8]) -> Option<HeadEnd>
    requires room { 0 < length buffer.old }
    requires few { length buffer.old ≤ PIECE_BYTES }
    ensures on { (old : LinkView) → Reading old ahead.old (L.view link.old) → Awaits ahead.old →
        ReadsOn old result ahead.new (L.view link.new) }
    ensures room { length buffer.new ≡ length buffer.old }
    ensures same { L.Same link.old link.new }
{
    match link.read(buffer) {
        Ok(0) => Some(HeadEnd::Ended),
        Ok(count) => match ahead.bytes.extend_from_slice(&buffer[..count]) {
            Ok(()) => None,
            Err(_) => Some(HeadEnd::NoMemory),
        },
        Err(_) => Some(HeadEnd::ReadFailed),
    }
}

/// Feeds or reads, where the head is awaited. Some is how that ended.
fn read_on<L: Link>(link: &mut L, ahead: &mut Ahead, buffer: &mut [u8]) -> Option<HeadEnd>
    requires room { 0 < length buffer.old }
    requires few { length buffer.old ≤ PIECE_BYTES }
    requires reading { (old : LinkView) × Reading old ahead.old (L.view link.old) }
    ensures on { (old : LinkView) → Reading old ahead.old (L.view link.old) →
        ReadsOn old result ahead.new (L.view link.new) }
    ensures room { length buffer.new ≡ length buffer.old }
    ensures same { L.Same link.old link.new }
{
    match front_of(&ahead.reader) {
        Front::Accepted => Some(HeadEnd::Accepted),
        Front::Refused(why) => Some(HeadEnd::Refused(why)),
        Front::Awaited => {
            if ahead.fed < ahead.bytes.len() {
                feed(ahead)
            } else {
                read(link, ahead, buffer)
            }
        }
    }
}

/// Reads piece by piece, until it is known of the head at the front whether it is accepted, or nothing more comes. It waits as long as
/// the link does.
pub(crate) fn read_head<R: Wait, L: Link>(rt: &R, link: &mut L, ahead: &mut Ahead) -> HeadEnd
    requires { (old : LinkView) × Reading old ahead.old (L.view link.old) }
    ensures ended { (old : LinkView) → Reading old ahead.old (L.view link.old) →
        HeadEnded old result ahead.new (L.view link.new) }
    ensures same { L.Same link.old link.new }
{
    let mut buffer = [0; PIECE_BYTES];
    for _ in rt.forever() {
        if let Some(end) = read_on(link, ahead, &mut buffer) {
            return end;
        }
    }
    unreachable!()
}
