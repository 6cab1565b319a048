//! The machine: what it wants next, and what each answer does.
ghost use Rattle.std.specs.Prelude.{◌≡◌, ◌<◌, ◌≤◌, ◌^◌, true, drop, take, length};
ghost use Rattle.conn_script.specs.declared.wants.TheConstants.{PIECE};
ghost use Rattle.conn_script.specs.Responses.{continue_text};

mod reading;
mod resting;
mod running;
mod writing;

use crate::inbox::{Inbox, behind};
use conn_script::{Answer, ConnFault, End, HubCall, LIMIT, PIECE, Run, Served, Undoing, Want};
use grid_types::{Bytes, ReqNo, SessionId};
use http_frames::{CONTINUE, one_head, stays};
use router_core::Router;
use std::alloc::Global;

/// What comes after a response.
#[derive(Clone, Copy)]
enum Then {
    Next,
    End(End),
}

/// What is to be ended where a response is not taken whole.
#[derive(Clone, Copy)]
enum Kept {
    Nothing,
    /// A session that was created, under this binding.
    Created(SessionId, ReqNo),
}

/// A response that is written, and how many of its bytes were taken.
#[derive(Drop)]
struct Outgoing {
    bytes: Bytes,
    sent: usize,
    then: Then,
    kept: Kept,
}

impl Outgoing {
    /// The bytes that are to be taken next.
    fn piece(&self) -> &[u8]
        requires { self.now.sent ≤ length self.now.bytes }
        ensures { result.now ≡ take PIECE (drop self.now.sent self.now.bytes) }
    {
        front(behind(self.bytes.as_bytes(), self.sent), PIECE as usize)
    }
}

/// At most so many of the bytes, the first ones.
fn front(text: &[u8], most: usize) -> &[u8]
    ensures { result.now ≡ take most text.now }
{
    if most < text.len() {
        &text[..most]
    } else {
        text
    }
}

#[derive(Drop)]
enum State {
    Reading,
    /// So many bytes of `100 Continue` were taken.
    Continuing(usize),
    Beginning,
    Running(Run),
    Writing(Outgoing),
    /// After a fault, a session that was created is ended, or a request is withdrawn whose client has left.
    Undoing(ConnFault, Undoing),
    Done(Result<Served, ConnFault>),
}

/// One connection.
///
/// It holds the request at the front as far as it was read, the last piece, and the response that is written; nothing of
/// what was answered.
#[derive(Drop)]
pub struct Talk {
    alloc: Global,
    inbox: Inbox,
    /// The bytes that were read.
    read: u64,
    /// The place in them where the request at the front begins.
    begins: u64,
    /// The whole requests that were answered.
    frames: u64,
    short: bool,
    /// `100 Continue` was written for the request at the front.
    continued: bool,
    /// The connection ends after the request under way.
    closes: bool,
    /// The table of paths, made for the first request.
    router: Option<Router>,
    state: State,
}

/// Its bytes from the place on.
fn continue_from(sent: usize) -> &'static [u8]
    requires { sent ≤ 25 }
    ensures { result.now ≡ drop sent (continue_text true) }
{
    &CONTINUE[sent..]
}

#[tactic(auto, unfolding(crate::specs::Talk::Stands, crate::specs::Talk::is_fresh, crate::specs::Talk::awaited, crate::specs::Talk::held, crate::specs::Talk::blamed, crate::specs::Talk::tokens, crate::specs::Talk::leaves, crate::specs::Talk::writes_bytes))]
impl Talk {
    ghost use Rattle.conn_script.specs.Wanted.{IsAwaited, came, is_wait};
    ghost use Rattle.hub_conn.specs.Talk.{is_fresh, awaited, held, StandsForSome, IsNew, HandsOut, Takes, Feeds, IsHeld, Rests, is_serving, writes_bytes, IsKept};

    /// A connection of which nothing was read. Takes no memory.
    pub fn new(alloc: Global) -> Talk
        ensures { IsNew result }
    {
        one_head();
        Talk {
            alloc,
            inbox: Inbox::new(alloc),
            read: 0,
            begins: 0,
            frames: 0,
            short: false,
            continued: false,
            closes: false,
            router: None,
            state: State::Reading,
        }
    }

    /// What is wanted. Nothing changes.
    pub fn next(&self) -> Want<'_>
        requires fresh { is_fresh self.now ≡ true }
        requires stands { StandsForSome self.now }
        ensures { HandsOut self.now result }
    {
        stays();
        one_head();
        match &self.state {
            State::Reading => Want::Read(PIECE.min(LIMIT - self.read) as u32),
            State::Continuing(sent) => Want::Write(continue_from(*sent)),
            State::Beginning => Want::Begin,
            State::Running(run) => match run.own_want() {
                Some(want) => want,
                None => run.wanted(self.inbox.whole()),
            },
            State::Writing(out) => Want::Write(out.piece()),
            State::Undoing(_, undoing) => undoing.wanted(),
            State::Done(result) => Want::Done(*result),
        }
    }

    /// The call that is wanted. It needs that `next` has just given `Hub`.
    pub fn hub_call(&mut self) -> HubCall
        requires { IsHeld (held self.old) }
        ensures { Takes self.old result self.new }
    {
        match self.take_state() {
            State::Running(run) => {
                let (call, run) = run.take();
                self.state = State::Running(run);
                call
            }
            State::Undoing(fault, undoing) => {
                let (call, undoing) = undoing.take();
                self.state = State::Undoing(fault, undoing);
                call
            }
            _ => unreachable!(),
        }
    }

    /// Takes the answer to what is wanted.
    pub fn feed(&mut self, answer: Answer<'_>)
        requires awaits { IsAwaited answer (awaited self.old) }
        requires stands { StandsForSome self.old }
        ensures { Feeds self.old answer.entry self.new }
    {
        match answer {
            Answer::Bytes(piece) => self.came(piece),
            Answer::EndOfInput => self.end_of_input(),
            Answer::ReadFailed => self.read_failed(),
            Answer::Wrote(count) => self.wrote(count),
            Answer::WriteFailed => self.write_failed(),
            Answer::Begun => self.begun(),
            Answer::Hub(answer) => self.answered(answer),
            Answer::Node(came) => self.exchanged(came),
            Answer::Paused => self.paused(),
            Answer::Gone => self.gone(),
        }
    }

    /// Whether a New Session waits to be polled again. Where its line tells that its client has left, `Gone` may be fed then in
    /// place of `Paused`. Takes no memory.
    pub fn waits(&self) -> bool
        ensures { result ≡ is_wait (awaited self.now) }
    {
        match &self.state {
            State::Running(run) => run.waits(),
            _ => false,
        }
    }

    /// Whether a request is being passed on, so that what its node answers is awaited. Takes no memory.
    pub fn passes_on(&self) -> bool
        ensures { result ≡ true → awaited self.now ≡ came }
    {
        match &self.state {
            State::Running(run) => run.passes_on(),
            _ => false,
        }
    }

    /// How many bytes it holds: those of the request at the front, of the last piece that was read, and of the response that
    /// is written. Takes no memory.
    pub fn kept(&self) -> u64
        ensures { is_serving self.now ≡ true → StandsForSome self.now → IsKept self.now result }
    {
        self.inbox.kept().saturating_add(self.response_len())
    }

    /// The bytes of the response that is written.
    fn response_len(&self) -> u64
        ensures count { result ≡ writes_bytes self.now }
        ensures few { result < 2 ^ 63 }
    {
        match &self.state {
            State::Writing(out) => out.bytes.as_bytes().len() as u64,
            _ => 0,
        }
    }

    /// Takes the state out, until another is put in.
    fn take_state(&mut self) -> State
        ensures taken { result ≡ self.old.state }
        ensures rests { Rests self.old self.new }
    {
        std::mem::replace(&mut self.state, State::Reading)
    }
}
