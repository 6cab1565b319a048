//! What the definitions say among themselves. The function does nothing: its contract is the law.
ghost use Rattle.block_frames.specs.OneWay.{OneWay};

/// Bytes are blocks, and what stands behind the last whole one, in one way at most. So of an input that was read to its end, where it
/// ended and which blocks it has are functions of its bytes.
pub fn blocks_are_read_one_way()
    ensures { OneWay }
{}
