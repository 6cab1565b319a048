//! One exchange with a node over TCP, of which no call waits.
//!
//! A start goes over a connection of its own, which is closed behind it. Any other request may go over one that is kept, and may
//! leave one that is. A node may close a connection while a request is on its way to it, and then nobody knows whether it took the
//! request: where no byte of a reply came, `GET` and `DELETE` are sent once more over a connection of their own, since that changes
//! nothing (RFC 9110, section 9.2.2), and nothing else is.
ghost use Rattle.std.specs.Prelude.{◌≡◌, ◌⊎◌, true, IfOk, IfSome, IsTrue, codes};
ghost use Rattle.grid_outside.specs.Exchanges.{is_within};

use crate::connections::{Stop, not_http};
use crate::machine::shown;
use crate::silence::Silence;
use crate::spares::{Spare, Spares};
use crate::ways::{Seen, Way, both};
use grid_outside::{PIECE_BYTES, Reply};
use grid_types::{Bytes, NodeAddress};
use http_frames::{
    LIMITS, NodeRequest, RStep, next_response, stays_open, write_open_request, write_request,
};
use std::alloc::Global;
use std::io::{ErrorKind, Read, Write};
use std::net::Net;
use std::time;

/// How long a node may take to be connected, in milliseconds.
const CONNECT_MS: u64 = 10_000;

/// How long a node may send and take nothing, in milliseconds.
const QUIET_MS: u64 = 600_000;

/// The same where the hub itself ends a session.
const QUIT_QUIET_MS: u64 = 30_000;

/// The room for what is read first, which most replies fit in.
const FIRST_BYTES: usize = 2_048;

/// The most pieces that are read in a row, so that no node holds up the others of its thread.
const PIECES: u32 = 16;

/// A reply of which so many bytes came gets room for the largest at once: else it would be moved each time that it outgrows its place.
const LARGE: usize = 1_048_576;

/// The head and the body of the largest reply that isn't in chunks.
const LARGEST: usize = (LIMITS.head as u64 + LIMITS.body) as usize;

/// An exchange under way.
#[derive(Drop)]
pub(crate) struct UnderWay {
    address: NodeAddress,
    /// Whether a session is to be started by it.
    starts: bool,
    /// Whether its request may be sent once more.
    repeats: bool,
    /// Whether its connection may be kept behind it, as far as the hub is concerned.
    keeps: bool,
    /// Whether its reply leaves the connection open, with nothing more to come over it.
    leaves_open: bool,
    way: Way,
    /// What is to be sent; nothing any more once all of it was, and need not be sent again.
    request: Bytes,
    is_sent: bool,
    sent: usize,
    reply: Vec<u8>,
    quiet_ms: u64,
    silence: Silence,
    /// When it began, and when it is given up at all events, by the machine's clock in milliseconds.
    began: u64,
    until: u64,
}

/// How reading ended.
#[derive(Clone, Copy, PartialEq, Eq)]
enum Heard {
    /// Nothing more is there now.
    NotNow,
    /// More may be there.
    More,
    End,
    Broken,
}

/// How long the node may be quiet. The hub's own `DELETE` is told by its having no headers of a client.
fn quiet_ms_of(request: &NodeRequest<'_>) -> u64 {
    let has_headers = request.accept.is_some() || request.content_type.is_some();
    if request.method == b"DELETE".as_slice() && !has_headers {
        QUIT_QUIET_MS
    } else {
        QUIET_MS
    }
}

/// Whether a session is to be started (WebDriver §8.1).
fn is_start(request: &NodeRequest<'_>) -> bool {
    request.method == b"POST".as_slice() && request.target == b"/session".as_slice()
}

/// Whether it changes nothing that the request is sent once more.
fn may_repeat(request: &NodeRequest<'_>) -> bool
    ensures { result ≡ true → (request.now.method.now ≡ codes "GET")
        ⊎ (request.now.method.now ≡ codes "DELETE") }
{
    request.method == b"GET".as_slice() || request.method == b"DELETE".as_slice()
}

/// The bytes of the request. One whose connection may be kept doesn't ask to close it.
fn written(
    alloc: Global,
    address: &NodeAddress,
    request: &NodeRequest<'_>,
    keeps: bool,
) -> Result<Bytes, Stop> {
    let address = address.as_bytes();
    if keeps {
        Ok(write_open_request(alloc, address, request)?)
    } else {
        Ok(write_request(alloc, address, request)?)
    }
}

impl UnderWay {
    /// Begins an exchange, which may take so many milliseconds. Where there are spare connections it goes over one of them, but
    /// for a start; else its own connection is on its way.
    pub(crate) fn begin<R: Net + time::Clock>(
        runtime: &R,
        seen: Seen<'_>,
        alloc: Global,
        address: &NodeAddress,
        request: &NodeRequest<'_>,
        allowed: u64,
        spares: Option<&Spares>,
    ) -> Result<UnderWay, Stop> {
        let began = shown(runtime);
        let starts = is_start(request);
        let spares = if starts { None } else { spares };
        let keeps = spares.is_some();
        let bytes = written(alloc, address, request, keeps)?;
        let way = match spares {
            Some(spares) => Way::spare_or_own(runtime, seen, alloc, address, spares, began)?,
            None => Way::own(runtime, seen, alloc, address)?,
        };
        Ok(UnderWay {
            address: *address,
            starts,
            repeats: may_repeat(request),
            keeps,
            leaves_open: false,
            way,
            request: bytes,
            is_sent: false,
            sent: 0,
            reply: Vec::new(alloc),
            quiet_ms: quiet_ms_of(request),
            silence: Silence::NONE,
            began,
            until: began.saturating_add(allowed),
        })
    }

    /// Whether the request may be sent over another connection once this one broke: no byte of it was taken, or it changes
    /// nothing that it is sent twice, and the node may have let go of the connection before it came.
    fn may_go_elsewhere(&self) -> bool
        ensures { result ≡ true → (self.now.sent ≡ 0) ⊎ (self.now.repeats ≡ true) }
    {
        self.sent == 0 || (self.repeats && self.way.is_spare() && self.reply.is_empty())
    }

    /// Goes over another connection, where it may.
    fn go_elsewhere<R: Net>(&mut self, net: &R, seen: Seen<'_>, alloc: Global) -> Result<(), Stop> {
        if !self.may_go_elsewhere() {
            return Err(Stop::Failed);
        }
        self.way.next(net, seen, alloc, &self.address)?;
        self.is_sent = false;
        self.sent = 0;
        self.silence.end();
        Ok(())
    }

    /// Whether the node is given up.
    fn is_late(&mut self, now: u64) -> bool {
        let limit = if self.sent == 0 {
            CONNECT_MS
        } else {
            self.quiet_ms
        };
        self.silence.has_lasted(now, limit) || now >= self.until
    }

    /// The whole request was sent: its bytes are let go, unless they may be sent again.
    fn ends_sending(&mut self, alloc: Global) {
        self.is_sent = true;
        if !self.may_go_elsewhere() {
            self.request = Bytes::from_vec(Vec::new(alloc));
        }
    }

    /// Sends what can be sent now.
    fn send<R: Net>(
        &mut self,
        net: &R,
        seen: Seen<'_>,
        alloc: Global,
        now: u64,
    ) -> Result<(), Stop> {
        for _ in 0..u64::MAX {
            let bytes = self.request.as_bytes();
            if self.sent >= bytes.len() {
                self.ends_sending(alloc);
                return Ok(());
            }
            match self.way.stream.write(&bytes[self.sent..]) {
                Ok(0) => return Err(Stop::Failed),
                Ok(count) => {
                    self.sent = self.sent.saturating_add(count);
                    self.silence.end();
                }
                Err(error) => {
                    let waits = error.kind() == ErrorKind::WouldBlock;
                    if waits && !self.is_late(now) {
                        return Ok(());
                    }
                    if waits && self.sent > 0 {
                        return Err(Stop::Failed);
                    }
                    self.go_elsewhere(net, seen, alloc)?;
                }
            }
        }
        Err(Stop::Failed)
    }

    /// Makes room for the largest reply, where it is a large one. Where there is no memory for that, it grows as it comes.
    fn make_room(&mut self) {
        let len = self.reply.len();
        if len >= LARGE && self.reply.capacity() < LARGEST {
            let _ = self.reply.reserve_exact(LARGEST.saturating_sub(len));
        }
    }

    /// Reads once. A piece that isn't filled is most likely all that is there.
    fn hear_piece(&mut self, piece: &mut [u8]) -> Result<Option<Heard>, Stop> {
        match self.way.stream.read(piece) {
            Ok(0) => Ok(Some(Heard::End)),
            Ok(count) => {
                self.reply.extend_from_slice(&piece[..count])?;
                self.silence.end();
                Ok(if count < piece.len() {
                    Some(Heard::More)
                } else {
                    None
                })
            }
            Err(error) if error.kind() == ErrorKind::WouldBlock => Ok(Some(Heard::NotNow)),
            Err(_) => Ok(Some(Heard::Broken)),
        }
    }

    /// Reads some of what is there now.
    fn hear(&mut self) -> Result<Heard, Stop> {
        if self.reply.is_empty() {
            if let Some(heard) = self.hear_piece(&mut [0; FIRST_BYTES])? {
                return Ok(heard);
            }
        }
        self.hear_more()
    }

    /// Reads more of a reply that doesn't come in one small piece.
    fn hear_more(&mut self) -> Result<Heard, Stop> {
        let mut piece = [0; PIECE_BYTES];
        self.make_room();
        for _ in 0..PIECES {
            if let Some(heard) = self.hear_piece(&mut piece)? {
                return Ok(heard);
            }
        }
        Ok(Heard::More)
    }

    /// The reply, where it is whole or none can come of the bytes: also one that is cut off by the end of input.
    fn receive<R: Net>(
        &mut self,
        net: &R,
        seen: Seen<'_>,
        alloc: Global,
        now: u64,
    ) -> Result<Option<Reply>, Stop>
        ensures { IfOk result (λ came. IfSome came (λ reply. IsTrue (is_within reply))) }
    {
        let before = self.reply.len();
        let heard = self.hear()?;
        let ended = heard == Heard::End;
        if self.reply.len() == before {
            if heard == Heard::NotNow {
                return if self.is_late(now) {
                    Err(Stop::Failed)
                } else {
                    Ok(None)
                };
            }
            if (ended || heard == Heard::Broken) && self.may_go_elsewhere() {
                self.go_elsewhere(net, seen, alloc)?;
                return Ok(None);
            }
        }
        match next_response(alloc, self.reply.as_slice(), ended, LIMITS)? {
            RStep::Whole(reply, len) => {
                self.ends_with(len, ended);
                Ok(Some(Reply::Http(reply)))
            }
            RStep::NotHttp => Ok(Some(not_http(alloc, self.reply.as_slice())?)),
            RStep::More => self.go_on(seen, heard),
        }
    }

    /// The reply has so many bytes of those that came.
    fn ends_with(&mut self, len: usize, ended: bool) {
        self.leaves_open = self.keeps
            && !ended
            && len == self.reply.len()
            && stays_open(self.reply.as_slice(), LIMITS);
    }

    /// Awaits more, where more may come. Where more is there already, it is told of once more.
    fn go_on(&mut self, seen: Seen<'_>, heard: Heard) -> Result<Option<Reply>, Stop>
        ensures { IfOk result (λ came. IfSome came (λ reply. IsTrue (is_within reply))) }
    {
        if heard == Heard::Broken {
            return Err(Stop::Failed);
        }
        if heard == Heard::More {
            seen.registry
                .reregister(&mut self.way.stream, seen.token, both())?;
        }
        Ok(None)
    }

    /// The node that is asked.
    pub(crate) fn address(&self) -> &NodeAddress {
        &self.address
    }

    /// Whether it is a start that was sent whole and has had its time: its node may still make the session.
    pub(crate) fn is_late_start(&self, now: u64) -> bool {
        self.starts && self.is_sent && now >= self.until
    }

    /// Its connection, where that is kept behind the reply; it was told of under the token.
    pub(crate) fn into_spare(self, seen: Seen<'_>, now: u64) -> Option<Spare> {
        if !self.leaves_open {
            return None;
        }
        let address = self.address;
        let stream = self.into_stream();
        Some(Spare::of(address, stream, seen.token, now))
    }

    /// Its stream alone.
    fn into_stream(self) -> mio::net::TcpStream {
        let UnderWay {
            address: _,
            starts: _,
            repeats: _,
            keeps: _,
            leaves_open: _,
            way,
            request: _,
            is_sent: _,
            sent: _,
            reply: _,
            quiet_ms: _,
            silence: _,
            began: _,
            until: _,
        } = self;
        way.into_stream()
    }

    /// Lets it go on until so many milliseconds after it began; its stream is told of under this token from now on. False: the
    /// system refuses that.
    pub(crate) fn prolong(&mut self, seen: Seen<'_>, ms: u64) -> bool {
        self.until = self.began.saturating_add(ms);
        self.silence.end();
        seen.registry
            .reregister(&mut self.way.stream, seen.token, both())
            .is_ok()
    }

    /// Does what can be done now. A reply is looked for only once it may be there: the gate tells of it.
    pub(crate) fn advance<R: Net + time::Clock>(
        &mut self,
        runtime: &R,
        seen: Seen<'_>,
        alloc: Global,
    ) -> Result<Option<Reply>, Stop>
        ensures { IfOk result (λ came. IfSome came (λ reply. IsTrue (is_within reply))) }
    {
        let now = shown(runtime);
        if self.is_sent {
            return self.receive(runtime, seen, alloc, now);
        }
        self.send(runtime, seen, alloc, now)?;
        Ok(None)
    }
}
