//! A request that is read piece by piece.
ghost use Rattle.std.specs.Prelude.{◌≡◌, ◌+◌, ◌-◌, ◌≤◌, ◌<◌, ◌++◌, IfOk, ℕ, List, [], true, false, take, length, OnErr, MatchOption, vec_capacity};
ghost use Rattle.http_frames.specs.declared.frames.FrameLimits.{FrameLimits};
ghost use Rattle.http_frames.specs.Feeding.{Fed, StandsForSome, IsFirstPhase, IsPhaseBehind, IsPhaseBehindLine, IsPhaseOfSized, IsPhaseOfData, IsPhaseAt, IsAtEnd, awaits_more, is_whole, is_whole_step, is_more, bytes_kept, IsReaderStep, IsHeadFound, IsWaiting, Feeds, KeepsFed, Stays, HasNoSpare};

use crate::FrameFault;
use crate::calm::{
    Calm, calm_behind, calm_of_chunk_line, calm_of_head, calm_of_trailers, is_blank, is_calm,
};
use crate::chunks::{MAX_CHUNK_LINE, MAX_TRAILERS};
use crate::fields::Framing;
use crate::frames::{Body, Frame, FrameLimits, Head, frame_of};
use crate::heads::{HeadStep, read_head};
use crate::turns::{
    HeadTurn, LineTurn, TrailersTurn, head_turn, line_turn, next_head, next_line, trailers_turn,
};
use grid_types::NoMemory;
use httparse::spans::EMPTY_HEADER_SPAN;
use std::alloc::Global;

/// Where the reading of a request stands.
#[derive(Clone, Copy, Debug)]
enum Phase {
    /// In the head.
    Head,
    /// In a body with a length, of which so many bytes are still to come.
    Sized(u64),
    /// In a chunk line.
    Line,
    /// In the data of a chunk, of which so many bytes are still to come.
    Data(u64),
    /// Behind the data of a chunk.
    DataEnd,
    /// Behind the CR behind the data.
    Return,
    /// Behind the last chunk line.
    Trailers,
    Whole,
    /// Refused for its head.
    BadHead(FrameFault),
    /// Refused for its body.
    BadBody(FrameFault),
}

/// What the bytes that were fed are.
#[derive(Clone, Copy, Debug)]
pub enum ReaderStep<'a> {
    /// A whole request, whose body is one part.
    Whole(Frame<'a>),
    /// More bytes are awaited.
    More { expects: bool },
    Refused(FrameFault),
}

/// A request whose bytes are fed piece by piece. It keeps the head, the data of the body, and an
/// unfinished chunk line or the unfinished trailers.
#[derive(Debug, Drop)]
pub struct FrameReader {
    limits: FrameLimits,
    phase: Phase,
    /// Which bytes leave an unfinished head, chunk line or section of trailers unfinished.
    calm: Calm,
    /// The head is accepted, and its client waits for `100 Continue`.
    waits: bool,
    head: Vec<u8>,
    body: Vec<u8>,
    line: Vec<u8>,
}

impl FrameReader {
    /// A reader that was fed nothing. Takes no memory.
    pub fn new(alloc: Global, limits: FrameLimits) -> FrameReader
        ensures { Fed limits result [] }
    {
        FrameReader {
            limits,
            phase: first_phase(limits),
            calm: Calm::Blank,
            waits: false,
            head: Vec::new(alloc),
            body: Vec::new(alloc),
            line: Vec::new(alloc),
        }
    }

    /// Takes bytes of the piece, none behind the end of the request or behind the byte for which it
    /// is refused, and gives how many: at least one where there is one. The caller feeds the others
    /// again while more bytes are awaited.
    pub fn feed(&mut self, piece: &[u8]) -> Result<usize, NoMemory>
        requires stands { StandsForSome self.old }
        requires more { awaits_more self.old ≡ true }
        ensures fed { IfOk result (λ n. Feeds self.old piece.now n self.new) }
        ensures kept { OnErr result (KeepsFed self.old self.new) }
    {
        if piece.is_empty() {
            return Ok(0);
        }
        match self.phase {
            Phase::Head => self.feed_head(piece),
            Phase::Sized(left) => self.feed_sized(piece, left),
            Phase::Line => self.feed_line(piece),
            Phase::Data(left) => self.feed_data(piece, left),
            Phase::DataEnd => Ok(self.feed_data_end(piece)),
            Phase::Return => Ok(self.feed_return(piece)),
            Phase::Trailers => self.feed_trailers(piece),
            Phase::Whole => Ok(0),
            Phase::BadHead(_) => Ok(0),
            Phase::BadBody(_) => Ok(0),
        }
    }

    /// What the bytes are that were fed since the last `next`. Takes no memory.
    pub fn step(&self) -> ReaderStep<'_>
        ensures told { (limits : FrameLimits) (bytes : List ℕ) → Fed limits self.now bytes →
            IsReaderStep limits bytes result }
        ensures more { StandsForSome self.now → is_more result ≡ awaits_more self.now }
        ensures whole { StandsForSome self.now → is_whole_step result ≡ is_whole self.now }
    {
        match self.phase {
            Phase::Whole => self.whole(),
            Phase::BadHead(why) => ReaderStep::Refused(why),
            Phase::BadBody(why) => ReaderStep::Refused(why),
            _ => ReaderStep::More {
                expects: self.waits,
            },
        }
    }

    /// Whether more bytes are awaited: whether `step` answers `More`. Takes no memory.
    pub fn awaits(&self) -> bool
        ensures { result ≡ awaits_more self.now }
    {
        !matches!(
            self.phase,
            Phase::Whole | Phase::BadHead(_) | Phase::BadBody(_)
        )
    }

    /// The head, where it is accepted. Takes no memory.
    pub fn head(&self) -> Option<Head<'_>>
        ensures { (limits : FrameLimits) (bytes : List ℕ) → Fed limits self.now bytes →
            IsHeadFound limits bytes result }
    {
        match self.phase {
            Phase::Head => None,
            Phase::BadHead(_) => None,
            _ => Some(Head {
                bytes: self.head.as_slice(),
            }),
        }
    }

    /// Whether the head is accepted and its client waits for `100 Continue` (RFC 9110 §10.1.1), also
    /// where a fault stands in the body. Bytes that `feed` left behind the end change nothing. Takes
    /// no memory.
    pub fn expects(&self) -> bool
        ensures { (limits : FrameLimits) (bytes : List ℕ) (more : List ℕ) → Fed limits self.now bytes
            → (awaits_more self.now ≡ true → more ≡ []) → IsWaiting limits (bytes ++ more) result }
    {
        match self.phase {
            Phase::Head => false,
            Phase::BadHead(_) => false,
            _ => self.waits,
        }
    }

    /// Drops the whole request. Takes no memory.
    pub fn next(&mut self)
        requires { is_whole self.old ≡ true }
        ensures { (limits : FrameLimits) (bytes : List ℕ) → Fed limits self.old bytes →
            Fed limits self.new [] }
    {
        self.head.clear();
        self.body.clear();
        self.line.clear();
        self.waits = false;
        self.calm = Calm::Blank;
        self.phase = first_phase(self.limits);
    }

    /// Gives back the memory of each buffer that has no byte, as those of a request that was dropped. It stands for what it
    /// stood for. Takes no memory.
    pub fn shrink(&mut self)
        ensures stays { Stays self.old self.new }
        ensures gives { HasNoSpare self.new }
    {
        give_back(&mut self.head);
        give_back(&mut self.body);
        give_back(&mut self.line);
    }

    /// How many bytes it holds. Takes no memory.
    pub fn kept(&self) -> u64
        ensures held { (limits : FrameLimits) (bytes : List ℕ) → Fed limits self.now bytes →
            result ≡ bytes_kept self.now }
        ensures bound { (limits : FrameLimits) (bytes : List ℕ) → Fed limits self.now bytes
            → result ≤ limits.head + limits.body + MAX_TRAILERS }
    {
        (self.head.len() as u64)
            .saturating_add(self.body.len() as u64)
            .saturating_add(self.line.len() as u64)
    }

    /// The request, where it is whole.
    fn whole(&self) -> ReaderStep<'_>
        ensures told { (limits : FrameLimits) (bytes : List ℕ) → IsAtEnd limits self.now bytes →
            IsReaderStep limits bytes result × (is_whole_step result ≡ true)
            × (is_more result ≡ false) }
    {
        let head = self.head.as_slice();
        let mut headers = [EMPTY_HEADER_SPAN; 100];
        match read_head(head, &mut headers) {
            HeadStep::Whole(spans) => {
                let fields = &headers[..spans.headers];
                let body = Body {
                    bytes: self.body.as_slice(),
                    chunked: false,
                };
                ReaderStep::Whole(frame_of(head, fields, &spans, body, self.waits))
            }
            HeadStep::Open => ReaderStep::More {
                expects: self.waits,
            },
            HeadStep::Bad => ReaderStep::More {
                expects: self.waits,
            },
        }
    }

    fn feed_head(&mut self, piece: &[u8]) -> Result<usize, NoMemory>
        requires stands { StandsForSome self.old }
        requires phase { self.old.phase ≡ Phase.Head }
        requires some { 0 < length piece.now }
        ensures fed { IfOk result (λ n. Feeds self.old piece.now n self.new) }
        ensures kept { OnErr result (KeepsFed self.old self.new) }
    {
        let old = self.head.len();
        let room = self.limits.head as usize - old;
        let part = next_head(piece, room, !is_blank(self.calm));
        let calm = calm_behind(self.calm, part);
        self.head.extend_from_slice(part)?;
        if is_calm(calm) && part.len() < room {
            self.calm = calm;
            return Ok(part.len());
        }
        match head_turn(self.head.as_slice(), old, self.limits) {
            HeadTurn::Open(len) => {
                self.head.truncate(len);
                self.calm = calm_of_head(self.head.as_slice());
                Ok(len - old)
            }
            HeadTurn::Bad(why) => {
                self.head.truncate(old);
                self.phase = Phase::BadHead(why);
                Ok(1)
            }
            HeadTurn::Whole {
                len,
                framing,
                waits,
            } => {
                self.head.truncate(len);
                self.calm = Calm::Nothing;
                self.waits = waits;
                self.phase = phase_behind(framing);
                Ok(len - old)
            }
        }
    }

    fn feed_sized(&mut self, piece: &[u8], left: u64) -> Result<usize, NoMemory>
        requires stands { StandsForSome self.old }
        requires phase { self.old.phase ≡ Phase.Sized left }
        requires some { 0 < length piece.now }
        ensures fed { IfOk result (λ n. Feeds self.old piece.now n self.new) }
        ensures kept { OnErr result (KeepsFed self.old self.new) }
    {
        let part = front_within(piece, left);
        self.body.extend_from_slice(part)?;
        let rest = left - part.len() as u64;
        self.phase = phase_of_sized(rest);
        Ok(part.len())
    }

    fn feed_line(&mut self, piece: &[u8]) -> Result<usize, NoMemory>
        requires stands { StandsForSome self.old }
        requires phase { self.old.phase ≡ Phase.Line }
        requires some { 0 < length piece.now }
        ensures fed { IfOk result (λ n. Feeds self.old piece.now n self.new) }
        ensures kept { OnErr result (KeepsFed self.old self.new) }
    {
        let old = self.line.len();
        let room = MAX_CHUNK_LINE - old;
        let part = next_line(piece, room);
        let calm = calm_behind(self.calm, part);
        self.line.extend_from_slice(part)?;
        if is_calm(calm) && part.len() < room {
            self.calm = calm;
            return Ok(part.len());
        }
        match line_turn(self.line.as_slice(), old) {
            LineTurn::Open(len) => {
                self.line.truncate(len);
                self.calm = calm_of_chunk_line(self.line.as_slice());
                Ok(len - old)
            }
            LineTurn::Bad => {
                self.line.truncate(old);
                self.phase = Phase::BadBody(FrameFault::BadChunk);
                Ok(1)
            }
            LineTurn::Whole { len, size } => {
                self.line.clear();
                self.calm = Calm::Nothing;
                self.phase = self.phase_behind_line(size);
                Ok(len - old)
            }
        }
    }

    /// What follows a chunk line with this size.
    fn phase_behind_line(&self, size: u64) -> Phase
        requires { length self.now.body.items ≤ self.now.limits.body }
        ensures { IsPhaseBehindLine (self.now.limits.body - length self.now.body.items) size
            result }
    {
        if size == 0 {
            Phase::Trailers
        } else if size > self.limits.body - self.body.len() as u64 {
            Phase::BadBody(FrameFault::BodyTooLong)
        } else {
            Phase::Data(size)
        }
    }

    fn feed_data(&mut self, piece: &[u8], left: u64) -> Result<usize, NoMemory>
        requires stands { StandsForSome self.old }
        requires phase { self.old.phase ≡ Phase.Data left }
        requires some { 0 < length piece.now }
        ensures fed { IfOk result (λ n. Feeds self.old piece.now n self.new) }
        ensures kept { OnErr result (KeepsFed self.old self.new) }
    {
        let part = front_within(piece, left);
        self.body.extend_from_slice(part)?;
        let rest = left - part.len() as u64;
        self.phase = phase_of_data(rest);
        Ok(part.len())
    }

    fn feed_data_end(&mut self, piece: &[u8]) -> usize
        requires stands { StandsForSome self.old }
        requires phase { self.old.phase ≡ Phase.DataEnd }
        requires some { 0 < length piece.now }
        ensures { Feeds self.old piece.now result self.new }
    {
        self.phase = phase_at(b'\r', Phase::Return, piece[0]);
        1
    }

    fn feed_return(&mut self, piece: &[u8]) -> usize
        requires stands { StandsForSome self.old }
        requires phase { self.old.phase ≡ Phase.Return }
        requires some { 0 < length piece.now }
        ensures { Feeds self.old piece.now result self.new }
    {
        self.calm = Calm::Nothing;
        self.phase = phase_at(b'\n', Phase::Line, piece[0]);
        1
    }

    fn feed_trailers(&mut self, piece: &[u8]) -> Result<usize, NoMemory>
        requires stands { StandsForSome self.old }
        requires phase { self.old.phase ≡ Phase.Trailers }
        requires some { 0 < length piece.now }
        ensures fed { IfOk result (λ n. Feeds self.old piece.now n self.new) }
        ensures kept { OnErr result (KeepsFed self.old self.new) }
    {
        let old = self.line.len();
        let room = MAX_TRAILERS - old;
        let part = next_line(piece, room);
        let calm = calm_behind(self.calm, part);
        self.line.extend_from_slice(part)?;
        if is_calm(calm) && part.len() < room {
            self.calm = calm;
            return Ok(part.len());
        }
        match trailers_turn(self.line.as_slice(), old) {
            TrailersTurn::Open(len) => {
                self.line.truncate(len);
                self.calm = calm_of_trailers(self.line.as_slice());
                Ok(len - old)
            }
            TrailersTurn::Bad => {
                self.line.truncate(old);
                self.phase = Phase::BadBody(FrameFault::BadChunk);
                Ok(1)
            }
            TrailersTurn::Whole(len) => {
                self.line.clear();
                self.phase = Phase::Whole;
                Ok(len - old)
            }
        }
    }
}

/// Where a reader is that was fed nothing.
fn first_phase(limits: FrameLimits) -> Phase
    ensures { IsFirstPhase limits result }
{
    if limits.head == 0 {
        Phase::BadHead(FrameFault::HeadTooLong)
    } else {
        Phase::Head
    }
}

/// What follows a head that calls for this body.
fn phase_behind(framing: Framing) -> Phase
    ensures { IsPhaseBehind framing result }
{
    match framing {
        Framing::Faulty(why) => Phase::BadHead(why),
        Framing::Chunked => Phase::Line,
        Framing::Sized(length) => {
            if length == 0 {
                Phase::Whole
            } else {
                Phase::Sized(length)
            }
        }
    }
}

/// Where a body with a length is of which so many bytes are still to come.
fn phase_of_sized(rest: u64) -> Phase
    ensures { IsPhaseOfSized rest result }
{
    if rest == 0 {
        Phase::Whole
    } else {
        Phase::Sized(rest)
    }
}

/// Where a chunk is of whose data so many bytes are still to come.
fn phase_of_data(rest: u64) -> Phase
    ensures { IsPhaseOfData rest result }
{
    if rest == 0 {
        Phase::DataEnd
    } else {
        Phase::Data(rest)
    }
}

/// What follows a byte where one certain byte is awaited.
fn phase_at(wanted: u8, next: Phase, byte: u8) -> Phase
    ensures { IsPhaseAt wanted next byte result }
{
    if byte == wanted {
        next
    } else {
        Phase::BadBody(FrameFault::BadChunk)
    }
}

/// Gives back the memory of a buffer without a byte. One with bytes is left as it is, since to move them takes time.
fn give_back(buffer: &mut Vec<u8>)
    ensures same { buffer.new.items ≡ buffer.old.items }
    ensures gives { buffer.new.items ≡ [] → vec_capacity buffer.new ≡ 0 }
{
    if buffer.is_empty() {
        buffer.shrink_to_fit();
    }
}

/// The first `limit` bytes, or all where there are fewer.
fn front_within(text: &[u8], limit: u64) -> &[u8]
    ensures { result.now ≡ take limit text.now }
{
    if (text.len() as u64) < limit {
        text
    } else {
        &text[..limit as usize]
    }
}
