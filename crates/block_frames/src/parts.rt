//! A part of an input is read.
ghost use Rattle.std.specs.Prelude.{◌≡◌, ◌≤◌, ◌<◌, [], ℕ, IfOk, IsErrOf, OnErr, length};
ghost use Rattle.grid_outside.specs.Counts.{Rose};
ghost use Rattle.block_frames.specs.Inputs.{ReadsPart, ReadsPiece, ReadsSome};

use grid_outside::Source;

/// How many bytes are read at once.
const PIECE: usize = 4_096;

/// Why reading broke off.
#[derive(Clone, Copy, Debug, PartialEq, Eq)]
pub enum ReadFault {
    /// A read failed.
    Read,
    /// Memory was wanted and there was none.
    Memory,
}

/// Where the reading of a part stopped.
#[derive(Clone, Copy, Debug, PartialEq, Eq)]
pub(crate) enum Part {
    /// All of it was read.
    Whole,
    /// The input ended before.
    Ended,
    /// No more bytes are read.
    AtLimit,
}

/// How many bytes are read next.
fn room_for(missing: usize, left: u64) -> usize
    requires missing { 0 < missing }
    requires left { 0 < left }
    ensures some { 0 < result }
    ensures piece { result ≤ 4_096 }
    ensures missing { result ≤ missing }
    ensures left { result ≤ left }
{
    let room = missing.min(PIECE);
    if left < room as u64 {
        left as usize
    } else {
        room
    }
}

/// Reads once, and answers how many bytes came.
fn read_piece<S: Source>(
    input: &mut S,
    room: usize,
    bytes: &mut Vec<u8>,
) -> Result<usize, ReadFault>
    requires some { 0 < room }
    requires most { room ≤ 4_096 }
    ensures reads { IfOk result (λ count. ReadsPiece count room bytes.old.items bytes.new.items
        (S.view input.old) (S.view input.new)) }
    ensures broken { OnErr result (ReadsSome (S.view input.old) (S.view input.new)) }
    ensures cause { IsErrOf result ReadFault.Read → Rose (S.view input.old).faults
        (S.view input.new).faults }
    ensures later { (S.view input.old).faults ≤ (S.view input.new).faults }
{
    let mut piece = [0; PIECE];
    match input.read(&mut piece[..room]) {
        Ok(count) => match bytes.extend_from_slice(&piece[..count]) {
            Ok(()) => Ok(count),
            Err(_) => Err(ReadFault::Memory),
        },
        Err(_) => Err(ReadFault::Read),
    }
}

fn stop_of(bytes: &[u8], wanted: usize) -> Part
    ensures whole { result ≡ Part.Whole → wanted ≤ length bytes.now }
    ensures limited { result ≡ Part.AtLimit → length bytes.now < wanted }
    ensures unended { result ≡ Part.Ended → length bytes.now < 0 }
{
    if bytes.len() < wanted {
        Part::AtLimit
    } else {
        Part::Whole
    }
}

/// Reads as many bytes as are wanted, or until the input ends or no more may be read. `left` is how many may be.
pub(crate) fn read_part<S: Source>(
    input: &mut S,
    wanted: usize,
    left: &mut u64,
    bytes: &mut Vec<u8>,
) -> Result<Part, ReadFault>
    requires { bytes.old.items ≡ [] }
    ensures reads { IfOk result (λ part. ReadsPart part wanted left.old left.new bytes.new.items
        (S.view input.old) (S.view input.new)) }
    ensures broken { OnErr result (ReadsSome (S.view input.old) (S.view input.new)) }
    ensures cause { IsErrOf result ReadFault.Read → Rose (S.view input.old).faults
        (S.view input.new).faults }
    ensures later { (S.view input.old).faults ≤ (S.view input.new).faults }
{
    'pieces: while bytes.len() < wanted && *left > 0 {
        let count = read_piece(input, room_for(wanted - bytes.len(), *left), bytes)?;
        if count == 0 {
            return Ok(Part::Ended);
        }
        *left -= count as u64;
    }
    Ok(stop_of(bytes.as_slice(), wanted))
}
