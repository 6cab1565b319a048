//! A block of bytes that is served.
ghost use Rattle.std.specs.Prelude.{◌≡◌, ◌≤◌, ◌<◌, length};

/// Gives the bytes of a block, and keeps what is written. A write fails for want of memory alone, and a read never does.
#[derive(Drop)]
pub(crate) struct BlockLink<'a> {
    pub(crate) bytes: &'a [u8],
    pub(crate) at: usize,
    pub(crate) taken: Vec<u8>,
    pub(crate) ends: u64,
    pub(crate) write_faults: u64,
    ghost within: { at ≤ length bytes.now },
    ghost whole: { 0 < ends → at ≡ length bytes.now },
}
