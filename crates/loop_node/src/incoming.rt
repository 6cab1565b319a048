//! The bytes that came and are not answered yet.
ghost use Rattle.std.specs.Prelude.{◌≡◌, ℕ, ◌+◌, ◌<◌, ◌≤◌, false, List, [], ◌++◌, length, drop, OnOk, OnErr, vec_len};
ghost use Rattle.loop_node.specs.declared.incoming.TheConstants.{MOST_BYTES};

use grid_types::NoMemory;
use std::alloc::Global;

/// The most bytes that are read of one connection.
pub(crate) const MOST_BYTES: u64 = 1 << 40;

/// The bytes that came and are not answered, how many more are read, how many requests were answered,
/// and whether the client of the one under way was told to go on.
#[derive(Drop)]
pub(crate) struct Incoming {
    pub(crate) bytes: Vec<u8>,
    pub(crate) left: u64,
    pub(crate) frames: u64,
    pub(crate) told: bool,
    ghost few: { frames + vec_len bytes + left ≤ MOST_BYTES },
}

impl Incoming {
    pub(crate) fn new(alloc: Global) -> Incoming
        ensures bytes { result.bytes.items ≡ [] }
        ensures left { result.left ≡ MOST_BYTES }
        ensures frames { result.frames ≡ 0 }
        ensures told { result.told ≡ false }
    {
        Incoming {
            bytes: Vec::new(alloc),
            left: MOST_BYTES,
            frames: 0,
            told: false,
        }
    }

    /// Puts a piece that was read behind the bytes.
    pub(crate) fn add(&mut self, piece: &[u8]) -> Result<(), NoMemory>
        requires { length piece.now ≤ self.old.left }
        ensures bytes { OnOk result (self.new.bytes.items ≡ self.old.bytes.items ++ piece.now) }
        ensures left { OnOk result (self.new.left + length piece.now ≡ self.old.left) }
        ensures frames { OnOk result (self.new.frames ≡ self.old.frames) }
        ensures told { OnOk result (self.new.told ≡ self.old.told) }
    {
        let count = piece.len() as u64;
        self.left -= count;
        match self.bytes.extend_from_slice(piece) {
            Ok(()) => Ok(()),
            Err(_) => Err(NoMemory),
        }
    }

    /// The request at the front, of so many bytes, was answered.
    pub(crate) fn next(&mut self, len: usize)
        requires some { 0 < len }
        requires within { len ≤ vec_len self.old.bytes }
        ensures bytes { self.new.bytes.items ≡ drop len self.old.bytes.items }
        ensures left { self.new.left ≡ self.old.left }
        ensures frames { self.new.frames ≡ self.old.frames + 1 }
        ensures told { self.new.told ≡ false }
    {
        self.frames += 1;
        self.told = false;
        self.bytes.drain(..len);
    }
}
