//! A block is written.
ghost use Rattle.std.specs.Prelude.{◌≡◌, ◌≤◌, ◌<◌, ◌^◌, ℕ, length, IsErrOf, OnErr, OnOk};
ghost use Rattle.grid_outside.specs.Counts.{Rose};
ghost use Rattle.grid_outside.specs.Told.{Gains, TookFront};
ghost use Rattle.block_frames.specs.Frames.{frame};

use grid_outside::{Sink, write_all};

/// Why a block was not written.
#[derive(Clone, Copy, Debug, PartialEq, Eq)]
pub enum WriteFault {
    /// It has more bytes than a length of four bytes tells. Nothing was written.
    TooLong,
    /// A write failed.
    Write,
}

/// Writes a block behind its length.
pub fn write_block<K: Sink>(output: &mut K, bytes: &[u8]) -> Result<(), WriteFault>
    ensures ok { OnOk result (Gains (K.view output.old).taken (K.view output.new).taken
        (frame bytes.now)) }
    ensures sized { OnOk result (length bytes.now < 2 ^ 32) }
    ensures long { IsErrOf result WriteFault.TooLong → 2 ^ 32 ≤ length bytes.now }
    ensures unwritten { IsErrOf result WriteFault.TooLong → output.new ≡ output.old }
    ensures broken { OnErr result
        (TookFront (K.view output.old).taken (K.view output.new).taken (frame bytes.now)) }
    ensures cause { IsErrOf result WriteFault.Write →
        Rose (K.view output.old).faults (K.view output.new).faults }
    ensures later { (K.view output.old).faults ≤ (K.view output.new).faults }
{
    let Ok(size) = u32::try_from(bytes.len()) else {
        return Err(WriteFault::TooLong);
    };
    let length = size.to_be_bytes();
    if write_all(output, &length).is_err() {
        return Err(WriteFault::Write);
    }
    match write_all(output, bytes) {
        Ok(()) => Ok(()),
        Err(_) => Err(WriteFault::Write),
    }
}
