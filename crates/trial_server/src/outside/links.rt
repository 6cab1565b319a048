//! Calls of any connection.
use grid_outside::{Failed, Link};

/// Whether a read into eight bytes gives this piece, which is empty at the end.
pub(crate) fn reads<L: Link>(link: &mut L, text: &str) -> bool {
    let mut piece = [0; 8];
    match link.read(&mut piece) {
        Ok(count) => &piece[..count] == text.as_bytes(),
        Err(Failed) => false,
    }
}

pub(crate) fn fails_to_read<L: Link>(link: &mut L) -> bool {
    let mut piece = [0; 8];
    link.read(&mut piece).is_err()
}

/// Whether so many bytes of the piece are taken.
pub(crate) fn writes<L: Link>(link: &mut L, piece: &str, count: usize) -> bool {
    match link.write(piece.as_bytes()) {
        Ok(taken) => taken == count,
        Err(Failed) => false,
    }
}
