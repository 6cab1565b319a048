//! Responses that are written.
ghost use Rattle.std.specs.Prelude.{◌≡◌, ◌+◌, ◌*◌, ◌<◌, ◌≤◌, [], length, Err};
ghost use Rattle.hub_conn.specs.Work.{byte_work, bytes_left, then_work, LeavesAtMost, ContinuesSome, SendsSome};
ghost use Rattle.conn_script.specs.Wanted.{IsAwaited};
ghost use Rattle.conn_script.specs.declared.wants.Answer.TheVariants as told;
ghost use Rattle.hub_conn.specs.Inbox.{HoldsSome};
ghost use Rattle.hub_conn.specs.Talk.{StandsForSome, awaited, Feeds, Settles, of_nothing, of_write, result_cause, IsAnswerable, Responds, ThenAfter, EndsUndone, ContinuesBy, HoldsNext, SentAll, SendsBy, BreaksOff, writes_bytes};

use crate::talk::{Kept, Outgoing, State, Talk, Then};
use conn_script::{ConnFault, End, Undoing};
use grid_types::{Bytes, ReqNo, SessionId};
use http_frames::{CONTINUE, stays};

impl Talk {
    /// So many bytes were taken.
    pub(super) fn wrote(&mut self, count: usize)
        requires awaits { IsAwaited (told.Wrote count) (awaited self.old) }
        requires stands { StandsForSome self.old }
        ensures { Feeds self.old (told.Wrote count) self.new }
    {
        match self.take_state() {
            State::Continuing(sent) => self.continued_by(sent, count),
            State::Writing(out) => self.sent_by(out, count),
            _ => unreachable!(),
        }
    }

    /// So many more bytes of `100 Continue` were taken.
    fn continued_by(&mut self, sent: usize, count: usize)
        requires holds { HoldsSome self.old.inbox }
        requires within { sent + count ≤ 25 }
        ensures goes { ContinuesBy self.old sent count self.new }
        ensures settles { Settles self.new of_nothing [] }
        ensures less { ContinuesSome self.old sent count self.new }
    {
        let sent = sent + count;
        if sent < CONTINUE.len() {
            self.state = State::Continuing(sent);
        } else {
            self.continued = true;
            self.look();
        }
    }

    /// So many more bytes of a response were taken.
    fn sent_by(&mut self, out: Outgoing, count: usize)
        requires holds { HoldsNext self.old out.then }
        requires within { out.sent + count ≤ length out.bytes }
        ensures goes { SendsBy self.old out count self.new }
        ensures settles { Settles self.new of_nothing [] }
        ensures less { SendsSome self.old out count self.new }
        ensures stays { out.sent + count < length out.bytes →
            writes_bytes self.new ≡ length out.bytes }
    {
        let sent = out.sent + count;
        if sent < out.bytes.as_bytes().len() {
            self.state = State::Writing(Outgoing { sent, ..out });
        } else {
            self.sent_all(out.then);
        }
    }

    /// A response was taken whole.
    fn sent_all(&mut self, then: Then)
        requires { HoldsNext self.old then }
        ensures all { SentAll self.old then self.new }
        ensures settles { Settles self.new of_nothing [] }
        ensures less { LeavesAtMost (then_work then (bytes_left self.old)) self.new }
    {
        match then {
            Then::Next => self.look(),
            Then::End(end) => self.end_so(end),
        }
    }

    /// Begins to write the response to the request under way, which is answered with it.
    pub(super) fn respond(&mut self, bytes: Bytes, is_last: bool, kept: Kept)
        requires { IsAnswerable self.old }
        ensures responds { Responds self.old bytes is_last kept self.new }
        ensures settles { Settles self.new of_nothing [] }
        ensures less { LeavesAtMost (byte_work * bytes_left self.old) self.new }
        ensures writes { writes_bytes self.new ≡ length bytes }
    {
        stays();
        let _length = bytes.as_bytes().len();
        let then = next_after(is_last, self.closes);
        let left = self.inbox.next();
        self.begins = self.read - left as u64;
        self.frames += 1;
        self.continued = false;
        self.state = State::Writing(Outgoing {
            bytes,
            sent: 0,
            then,
            kept,
        });
    }

    /// A write failed.
    pub(super) fn write_failed(&mut self)
        requires awaits { IsAwaited told.WriteFailed (awaited self.old) }
        requires stands { StandsForSome self.old }
        ensures { Feeds self.old told.WriteFailed self.new }
    {
        match self.take_state() {
            State::Writing(out) => self.broken_off(&out),
            _ => self.fail(ConnFault::Write),
        }
    }

    /// A response was broken off.
    fn broken_off(&mut self, out: &Outgoing)
        ensures breaks { BreaksOff self.old out.now self.new }
        ensures settles { Settles self.new of_write [] }
        ensures less { LeavesAtMost 4 self.new }
    {
        match out.kept {
            Kept::Created(session, binding) => self.undo(ConnFault::Write, session, binding),
            Kept::Nothing => self.fail(ConnFault::Write),
        }
    }

    /// Begins to end a session that was created.
    pub(super) fn undo(&mut self, fault: ConnFault, session: SessionId, binding: ReqNo)
        ensures ends { EndsUndone fault session binding self.new }
        ensures settles { Settles self.new (result_cause (Err fault)) [] }
        ensures less { LeavesAtMost 4 self.new }
        ensures writes { writes_bytes self.new ≡ 0 }
    {
        self.state = State::Undoing(fault, Undoing::End(session, binding));
    }
}

/// What comes after a response.
fn next_after(is_last: bool, closes: bool) -> Then
    ensures { ThenAfter is_last closes result }
{
    if is_last {
        Then::End(End::HubSpent)
    } else if closes {
        Then::End(End::Asked)
    } else {
        Then::Next
    }
}
