//! What a line that never waits gives and takes, piece by piece.
ghost use Rattle.std.specs.Prelude.{◌≡◌, ◌<◌, [], length, IfNone, IfSome};
ghost use Rattle.conn_script.specs.Wanted.{bytes_in, count, piece, taken_of, to_write};
ghost use Rattle.hub_links.specs.Links.{DoesLink, MovesSome};

use grid_outside::{Line, Reading, Writing};
use hub_conn::Answer;

/// Reads a piece of at most so many bytes of what is there, or as many as the buffer has room for. None: nothing is there, and
/// all is as before.
pub fn read_now<'b, L: Line>(line: &mut L, most: u32, buffer: &'b mut [u8]) -> Option<Answer<'b>>
    requires few { 0 < most }
    requires room { 0 < length buffer.old }
    ensures reads { IfSome result (λ answer. DoesLink answer (piece most)
        (L.view line.old) (bytes_in answer) []
        (L.view line.new)) }
    ensures some { IfSome result (λ answer. MovesSome answer) }
    ensures not_now { IfNone result (L.view line.new ≡ L.view line.old) }
{
    let len = buffer.len().min(most as usize);
    match line.read(&mut buffer[..len]) {
        Reading::Bytes(count) => Some(Answer::Bytes(&buffer[..count])),
        Reading::End => Some(Answer::EndOfInput),
        Reading::NotNow => None,
        Reading::Failed => Some(Answer::ReadFailed),
    }
}

/// Writes some of the bytes, as many as can be taken now. None: none can, and all is as before.
pub fn write_now<L: Line>(line: &mut L, bytes: &[u8]) -> Option<Answer<'static>>
    ensures writes { IfSome result (λ answer. DoesLink answer (count (length bytes.now))
        (L.view line.old) [] (taken_of answer (to_write bytes.now))
        (L.view line.new)) }
    ensures some { 0 < length bytes.now → IfSome result (λ answer. MovesSome answer) }
    ensures not_now { IfNone result (L.view line.new ≡ L.view line.old) }
{
    match line.write(bytes) {
        Writing::Bytes(count) => Some(Answer::Wrote(count)),
        Writing::NotNow => None,
        Writing::Failed => Some(Answer::WriteFailed),
    }
}
