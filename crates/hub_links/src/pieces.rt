//! What a link gives and takes, piece by piece.
ghost use Rattle.std.specs.Prelude.{◌≡◌, ℕ, ◌<◌, [], length};
ghost use Rattle.conn_script.specs.Wanted.{bytes_in, count, piece, taken_of, to_write};
ghost use Rattle.hub_links.specs.Links.{DoesLink, MovesSome};

use grid_outside::Link;
use hub_conn::Answer;

/// Reads a piece of at most so many bytes, or as many as the buffer has room for.
pub fn read_piece<'b, L: Link>(link: &mut L, most: u32, buffer: &'b mut [u8]) -> Answer<'b>
    requires few { 0 < most }
    requires room { 0 < length buffer.old }
    ensures reads { DoesLink result (piece most)
        (L.view link.old) (bytes_in result) []
        (L.view link.new) }
    ensures some { MovesSome result }
    ensures same { L.Same link.old link.new }
{
    let len = buffer.len().min(most as usize);
    match link.read(&mut buffer[..len]) {
        Ok(0) => Answer::EndOfInput,
        Ok(count) => Answer::Bytes(&buffer[..count]),
        Err(_) => Answer::ReadFailed,
    }
}

/// Writes some of the bytes.
pub fn write_some<L: Link>(link: &mut L, bytes: &[u8]) -> Answer<'static>
    ensures writes { DoesLink result (count (length bytes.now))
        (L.view link.old) [] (taken_of result (to_write bytes.now))
        (L.view link.new) }
    ensures some { 0 < length bytes.now → MovesSome result }
    ensures same { L.Same link.old link.new }
{
    match link.write(bytes) {
        Ok(count) => Answer::Wrote(count),
        Err(_) => Answer::WriteFailed,
    }
}
