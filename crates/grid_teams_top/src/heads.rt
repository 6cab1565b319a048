//! The head at the front of some bytes, which is read before a hub is chosen.
ghost use Rattle.std.specs.Prelude.{◌≡◌, ◌≤◌, ◌<◌, ℕ, List, true, false, drop, length, OnOk};
ghost use Rattle.http_frames.specs.Feeding.{Fed, StandsForSome, awaits_more};
ghost use Rattle.http_frames.specs.declared.frames.FrameLimits.{FrameLimits};
ghost use Rattle.grid_teams_top.specs.Heads.{HasRead, IsReadTo};

use grid_types::NoMemory;
use http_frames::{FrameReader, ReaderStep};

/// The bytes from the place on.
fn behind(text: &[u8], at: usize) -> &[u8]
    requires { at ≤ length text.now }
    ensures { result.now ≡ drop at text.now }
{
    &text[at..]
}

/// Whether bytes are left, and more are needed to tell whether a head is accepted.
fn reads_on(reader: &FrameReader, bytes: &[u8], at: usize) -> bool
    requires stands { StandsForSome reader.now }
    requires within { at ≤ length bytes.now }
    ensures more { result ≡ true → (awaits_more reader.now ≡ true) × (at < length bytes.now) }
    ensures over { result ≡ false → IsReadTo reader.now (length bytes.now) at }
{
    match reader.head() {
        Some(_head) => false,
        None => reads_further(reader, bytes, at),
    }
}

/// The same where no head is accepted.
fn reads_further(reader: &FrameReader, bytes: &[u8], at: usize) -> bool
    requires stands { StandsForSome reader.now }
    requires within { at ≤ length bytes.now }
    ensures more { result ≡ true → (awaits_more reader.now ≡ true) × (at < length bytes.now) }
    ensures over { result ≡ false → IsReadTo reader.now (length bytes.now) at }
{
    match reader.step() {
        ReaderStep::Whole(_frame) => false,
        ReaderStep::More { expects: _ } => at < bytes.len(),
        ReaderStep::Refused(_why) => false,
    }
}

/// Feeds the bytes to the reader, until the head is told or all are fed. Err is want of memory.
pub fn feed_head(reader: &mut FrameReader, bytes: &[u8]) -> Result<(), NoMemory>
    requires { StandsForSome reader.old }
    ensures { OnOk result ((limits : FrameLimits) (before : List ℕ) → Fed limits reader.old before →
        HasRead limits reader.new before bytes.now) }
{
    let mut at = 0;
    'parts: while reads_on(reader, bytes, at) {
        let count = reader.feed(behind(bytes, at))?;
        at += count;
    }
    Ok(())
}
