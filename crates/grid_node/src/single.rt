//! A link for one request.
//!
//! The node serves one link at a time, so a client that kept its connection open would hold up all others. So a header that asks
//! to close stands behind the first line of what comes in, and the node ends the connection behind its response (RFC 9112, section
//! 9.6).
ghost use Rattle.std.specs.Prelude.{◌≡◌, ◌≤◌, ◌<◌, length, min};

use grid_outside::{Failed, Link};

/// The header.
const CLOSE: &[u8] = b"Connection: close\r\n";

/// What is handed out.
#[derive(Clone, Copy)]
enum Stage {
    /// The first line, byte by byte; whether it has begun. Empty lines may stand in front of it.
    Line(bool),
    /// The header from this byte on, and then what else comes in.
    Close(usize),
}

/// Hands out what the link gives, with the header behind its first line.
#[derive(Drop)]
pub(crate) struct SingleLink<L: Link + Drop> {
    link: L,
    stage: Stage,
}

impl<L: Link + Drop> SingleLink<L> {
    /// Around a link of which nothing was read.
    pub(crate) fn new(link: L) -> Self
        ensures { result.link ≡ link }
    {
        SingleLink {
            link,
            stage: Stage::Line(false),
        }
    }

    /// The link.
    pub(crate) fn into_link(self) -> L
        ensures { result ≡ self.link }
    {
        self.link
    }
}

/// What is handed out behind a byte of the first line.
fn behind_byte(byte: u8, has_begun: bool) -> Stage {
    match byte {
        b'\n' if has_begun => Stage::Close(0),
        b'\r' | b'\n' => Stage::Line(has_begun),
        _ => Stage::Line(true),
    }
}

/// Copies to the front of `into` as many bytes as both hold.
fn copy_front(into: &mut [u8], from: &[u8]) -> usize
    ensures { result ≡ min (length into.old) (length from.now) }
{
    let count = into.len().min(from.len());
    let front = &mut into[..count];
    front.copy_from_slice(&from[..count]);
    count
}

impl<L: Link + Drop> Link for SingleLink<L> {
    ghost use Rattle.std.specs.Prelude.{None};

    // Which bytes it gave it does not tell.
    ghost view = { λ l. record (L.view l.link) { given = None } };

    ghost Same = { λ x y. Unit {0} };

    ghost same_refl = { λ x. tt };

    ghost same_trans = { λ x y z p q. tt };

    fn read(&mut self, into: &mut [u8]) -> Result<usize, Failed> {
        match self.stage {
            Stage::Close(at) if at < CLOSE.len() => {
                let count = copy_front(into, &CLOSE[at..]);
                self.stage = Stage::Close(at.saturating_add(count));
                Ok(count)
            }
            Stage::Close(_) => self.link.read(into),
            Stage::Line(has_begun) => {
                let room = into.len().min(1);
                let count = self.link.read(&mut into[..room])?;
                if count > 0 {
                    self.stage = behind_byte(into[0], has_begun);
                }
                Ok(count)
            }
        }
    }

    fn write(&mut self, from: &[u8]) -> Result<usize, Failed> {
        self.link.write(from)
    }
}
