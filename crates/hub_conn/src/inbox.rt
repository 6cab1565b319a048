//! The bytes that came on the connection and are not answered yet.
ghost use Rattle.std.specs.Prelude.{◌≡◌, ◌≤◌, ◌<◌, ◌++◌, ℕ, List, [], ◌∷◌, true, false, length, drop, OnErr, OnOk};
ghost use Rattle.http_frames.specs.Frames.{Request};
ghost use Rattle.http_frames.specs.FrameSteps.{HasParts};
ghost use Rattle.http_frames.specs.Feeding.{awaits_more};
ghost use Rattle.hub_conn.specs.Inbox.{unread, keeps_bytes, most_read, Holds, HoldsSome, HoldsWhole, HoldsSomeWhole, HoldsSame, HasNoSpare, IsFilled, IsSeen, LeavesRest};
ghost use Rattle.conn_script.specs.declared.wants.TheConstants.{PIECE};
ghost use Rattle.hub_conn.specs.Conversation.{Waits};
ghost use Rattle.conn_script.specs.Asking.{IsOf};

use conn_script::Whole;
use grid_types::NoMemory;
use http_frames::{
    Body, FrameFault, FrameReader, LIMITS, ReaderStep, one_head, one_reading, stays,
};
use std::alloc::Global;

/// What stands at the front of the bytes.
#[derive(Clone, Copy)]
pub enum Seen {
    /// A whole request, and whether the connection ends after it.
    Whole(bool),
    More,
    Refused(FrameFault),
}

/// The request at the front, as far as it was read, and the bytes behind it.
#[derive(Drop)]
pub struct Inbox {
    reader: FrameReader,
    /// The last piece.
    piece: Vec<u8>,
    /// How many bytes of the piece the reader was fed.
    fed: usize,
}

/// The part of a body that has one.
fn only_part(body: Body<'_>) -> &[u8]
    ensures { (part : List ℕ) → HasParts body.entry (part ∷ []) → result.now ≡ part }
{
    match body.parts().next() {
        Some(part) => part,
        None => b"",
    }
}

/// The bytes from the place on.
pub(crate) fn behind(text: &[u8], at: usize) -> &[u8]
    requires { at ≤ length text.now }
    ensures { result.now ≡ drop at text.now }
{
    &text[at..]
}

impl Inbox {
    /// Of a connection of which nothing was read. Takes no memory.
    pub fn new(alloc: Global) -> Inbox
        ensures holds { Holds result [] }
        ensures read { unread result ≡ [] }
    {
        Inbox {
            reader: FrameReader::new(alloc, LIMITS),
            piece: Vec::new(alloc),
            fed: 0,
        }
    }

    /// How many bytes it holds. Takes no memory.
    pub fn kept(&self) -> u64
        ensures { HoldsSome self.now → (result ≡ keeps_bytes self.now) × (result ≤ most_read) }
    {
        self.reader.kept().saturating_add(self.piece.len() as u64)
    }

    /// Gives back the memory of each buffer that has no byte that is still wanted. It holds what it held. Takes no memory.
    pub fn rest(&mut self)
        ensures same { HoldsSame self.old self.new }
        ensures gives { HasNoSpare self.new }
    {
        self.reader.shrink();
        if self.fed >= self.piece.len() {
            self.piece.clear();
            self.piece.shrink_to_fit();
            self.fed = 0;
        }
    }

    /// Puts a piece behind the bytes, all of which were read. An empty one takes no memory.
    pub fn add(&mut self, piece: &[u8]) -> Result<(), NoMemory>
        requires read { unread self.old ≡ [] }
        requires fits { length piece.now ≤ PIECE }
        requires holds { HoldsSome self.old }
        ensures holds { OnOk result ((bytes : List ℕ) → Holds self.old bytes →
            Holds self.new (bytes ++ piece.now)) }
        ensures some { OnErr result (0 < length piece.now) }
    {
        self.piece.drain(..self.fed);
        self.fed = 0;
        if piece.is_empty() {
            return Ok(());
        }
        match self.piece.extend_from_slice(piece) {
            Ok(()) => Ok(()),
            Err(_) => Err(NoMemory),
        }
    }

    /// Reads on, to the end of the request at the front or of the bytes. Where all bytes were read it takes no memory.
    pub fn fill(&mut self) -> Result<(), NoMemory>
        requires { HoldsSome self.old }
        ensures fills { OnOk result (IsFilled self.new
            × ((bytes : List ℕ) → Holds self.old bytes → Holds self.new bytes)) }
        ensures some { OnErr result (0 < length (unread self.old)) }
    {
        while self.reads_on() {
            let rest = behind(self.piece.as_slice(), self.fed);
            let n = self.reader.feed(rest)?;
            self.fed += n;
        }
        Ok(())
    }

    /// Whether more bytes are awaited, and some are there.
    fn reads_on(&self) -> bool
        requires { HoldsSome self.now }
        ensures yes { result ≡ true → (awaits_more self.now.reader ≡ true)
            × (self.now.fed < length self.now.piece.items) }
        ensures no { result ≡ false → IsFilled self.now }
    {
        self.reader.awaits() && self.fed < self.piece.len()
    }

    /// What stands at the front, once it was read on.
    pub fn see(&self) -> Seen
        requires { HoldsSome self.now }
        ensures { IsFilled self.now → (bytes : List ℕ) → Holds self.now bytes →
            IsSeen self.now bytes result }
    {
        stays();
        one_head();
        match self.reader.step() {
            ReaderStep::Whole(frame) => Seen::Whole(frame.closes),
            ReaderStep::More { .. } => Seen::More,
            ReaderStep::Refused(why) => Seen::Refused(why),
        }
    }

    /// Whether the client of the request at the front waits for `100 Continue`, once it was read on.
    pub fn waits(&self) -> bool
        ensures { IsFilled self.now → (bytes : List ℕ) → Holds self.now bytes → Waits bytes result }
    {
        self.reader.expects()
    }

    /// The request at the front, which is whole.
    pub fn whole(&self) -> Whole<'_>
        requires { HoldsSomeWhole self.now }
        ensures { (bytes : List ℕ) (f : Request) → HoldsWhole self.now bytes f → IsOf result f }
    {
        one_reading();
        match self.reader.step() {
            ReaderStep::Whole(frame) => Whole {
                method: frame.method,
                target: frame.target,
                head: frame.head,
                body: only_part(frame.body),
            },
            _ => unreachable!(),
        }
    }

    /// Lets the whole request at the front go, and gives how many bytes stand behind it.
    pub fn next(&mut self) -> usize
        requires { HoldsSomeWhole self.old }
        ensures { (bytes : List ℕ) (f : Request) → HoldsWhole self.old bytes f →
            LeavesRest bytes f result self.new }
    {
        stays();
        self.reader.next();
        self.piece.len() - self.fed
    }
}
