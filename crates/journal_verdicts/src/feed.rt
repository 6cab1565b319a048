//! The bytes of the input that were read.
ghost use Rattle.std.specs.Prelude.{◌+◌, ◌-◌, ◌^◌, ◌≤◌, vec_len};

mod reading;

/// The bytes that were read and are not taken off the front yet: those of `bytes` from `start` on. Before them `taken` bytes
/// were taken off, and `ended` says whether the input has ended behind them.
#[derive(Drop)]
pub(crate) struct Feed {
    bytes: Vec<u8>,
    start: usize,
    taken: u64,
    ended: bool,
    ghost within: { start ≤ vec_len bytes },
    ghost most: { taken + (vec_len bytes - start) ≤ 2 ^ 40 },
}
