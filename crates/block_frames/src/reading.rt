//! A block is read.
ghost use Rattle.std.specs.Prelude.{◌≡◌, ◌≤◌, ◌<◌, ◌^◌, [], ℕ, length, IfOk, IfSome, IfNone, IsErrOf, OnErr};
ghost use Rattle.grid_outside.specs.Counts.{Rose};
ghost use Rattle.block_frames.specs.Frames.{length_bytes};
ghost use Rattle.block_frames.specs.Inputs.{ReadsSome};
ghost use Rattle.block_frames.specs.Blocks.{ReadsBlock, ReadsBody, ReadsSized};

use crate::parts::{Part, ReadFault, read_part};
use grid_outside::Source;
use grid_types::Bytes;
use std::alloc::Global;

/// How many bytes a length has.
const LENGTH_BYTES: usize = 4;

/// What stands next in an input.
#[derive(Debug, Drop)]
pub enum NextBlock {
    /// A block.
    Block(Bytes),
    /// The end of the input.
    Between,
    /// The end of the input, inside a block or its length.
    Inside,
    /// A block, of which no more may be read.
    AtLimit,
    /// A length that is more than the most.
    TooLong,
}

/// The number that four bytes are, greatest byte first.
fn number_of(bytes: &[u8]) -> Option<u32>
    ensures some { IfSome result (λ size. bytes.now ≡ length_bytes size) }
    ensures small { IfSome result (λ size. size < 2 ^ 32) }
    ensures none { IfNone result (length bytes.now ≡ 4 → ⊥) }
{
    let [first, second, third, fourth] = bytes else {
        return None;
    };
    Some(u32::from_be_bytes([*first, *second, *third, *fourth]))
}

/// Reads a block of so many bytes, whose length was read.
fn read_body<S: Source>(
    alloc: Global,
    input: &mut S,
    size: u32,
    left: &mut u64,
) -> Result<NextBlock, ReadFault>
    ensures reads { IfOk result (λ next. ReadsBody size next left.old left.new (S.view input.old)
        (S.view input.new)) }
    ensures broken { OnErr result (ReadsSome (S.view input.old) (S.view input.new)) }
    ensures cause { IsErrOf result ReadFault.Read → Rose (S.view input.old).faults
        (S.view input.new).faults }
    ensures later { (S.view input.old).faults ≤ (S.view input.new).faults }
{
    let mut bytes = Vec::new(alloc);
    match read_part(input, size as usize, left, &mut bytes) {
        Ok(Part::Whole) => Ok(NextBlock::Block(Bytes::from_vec(bytes))),
        Ok(Part::Ended) => Ok(NextBlock::Inside),
        Ok(Part::AtLimit) => Ok(NextBlock::AtLimit),
        Err(fault) => Err(fault),
    }
}

/// Reads on behind a length of a block.
fn read_sized<S: Source>(
    alloc: Global,
    input: &mut S,
    most: u32,
    size: u32,
    left: &mut u64,
) -> Result<NextBlock, ReadFault>
    ensures reads { IfOk result (λ next. ReadsSized most size next left.old left.new
        (S.view input.old) (S.view input.new)) }
    ensures broken { OnErr result (ReadsSome (S.view input.old) (S.view input.new)) }
    ensures cause { IsErrOf result ReadFault.Read → Rose (S.view input.old).faults
        (S.view input.new).faults }
    ensures later { (S.view input.old).faults ≤ (S.view input.new).faults }
{
    if size > most {
        return Ok(NextBlock::TooLong);
    }
    read_body(alloc, input, size, left)
}

/// Where the length of a block is cut off: between blocks, where nothing of it is there.
fn cut_of(bytes: &[u8]) -> NextBlock
    ensures between { length bytes.now ≡ 0 → result ≡ NextBlock.Between }
    ensures inside { 0 < length bytes.now → result ≡ NextBlock.Inside }
{
    if bytes.is_empty() {
        NextBlock::Between
    } else {
        NextBlock::Inside
    }
}

/// Reads the block that stands next, of at most so many bytes. `left` is how many bytes may be read at all.
pub fn read_block<S: Source>(
    alloc: Global,
    input: &mut S,
    most: u32,
    left: &mut u64,
) -> Result<NextBlock, ReadFault>
    requires { 0 < left.old }
    ensures reads { IfOk result (λ next. ReadsBlock most next left.old left.new (S.view input.old)
        (S.view input.new)) }
    ensures broken { OnErr result (ReadsSome (S.view input.old) (S.view input.new)) }
    ensures cause { IsErrOf result ReadFault.Read → Rose (S.view input.old).faults
        (S.view input.new).faults }
    ensures later { (S.view input.old).faults ≤ (S.view input.new).faults }
{
    let mut bytes = Vec::new(alloc);
    match read_part(input, LENGTH_BYTES, left, &mut bytes) {
        Ok(Part::Whole) => match number_of(bytes.as_slice()) {
            Some(size) => read_sized(alloc, input, most, size, left),
            None => Ok(NextBlock::Inside),
        },
        Ok(Part::Ended) => Ok(cut_of(bytes.as_slice())),
        Ok(Part::AtLimit) => Ok(NextBlock::AtLimit),
        Err(fault) => Err(fault),
    }
}
