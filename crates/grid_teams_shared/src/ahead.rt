//! What was read of a connection before a hub is chosen.
ghost use Rattle.http_frames.specs.Feeding.{Fed};
ghost use Rattle.http_frames.specs.declared.frames.TheConstants.{LIMITS};
ghost use Rattle.std.specs.Prelude.{◌≡◌, []};

use http_frames::{FrameFault, FrameReader, LIMITS};
use std::alloc::Global;

/// The bytes that were read of a connection, and a reader that was fed so many of them.
#[derive(Drop)]
pub(crate) struct Ahead {
    pub(crate) reader: FrameReader,
    pub(crate) bytes: Vec<u8>,
    pub(crate) fed: usize,
}

/// How the reading of a head ended.
#[derive(Clone, Copy, Debug)]
pub(crate) enum HeadEnd {
    Accepted,
    Refused(FrameFault),
    /// The input ended before.
    Ended,
    ReadFailed,
    NoMemory,
}

impl Ahead {
    /// Nothing was read.
    pub(crate) fn new(alloc: Global) -> Ahead
        ensures fed { (result.fed ≡ 0) × Fed LIMITS result.reader [] }
        ensures bytes { result.bytes.items ≡ [] }
    {
        Ahead {
            reader: FrameReader::new(alloc, LIMITS),
            bytes: Vec::new(alloc),
            fed: 0,
        }
    }
}
