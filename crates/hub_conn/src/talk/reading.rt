//! Bytes that come, and what stands at their front.
ghost use Rattle.std.specs.Prelude.{◌≡◌, ◌≤◌, ◌+◌, ◌&&◌, not, [], length};
ghost use Rattle.hub_conn.specs.Work.{bytes_left, read_work, begin_work, look_work, LeavesAtMost};
ghost use Rattle.conn_script.specs.declared.wants.Answer.TheVariants as told;
ghost use Rattle.conn_script.specs.declared.wants.TheConstants.{LIMIT, PIECE};
ghost use Rattle.hub_conn.specs.declared.talk.State.TheVariants as states;
ghost use Rattle.hub_conn.specs.Inbox.{HoldsSome, IsFilled};
ghost use Rattle.hub_conn.specs.Talk.{StandsForSome, Feeds, HasFailed, HasEnded, Settles, of_nothing, Looks, LooksOn, ReadsOn, Refuses};

use crate::inbox::Seen;
use crate::talk::{Kept, Outgoing, State, Talk, Then};
use conn_script::{ConnFault, End, LIMIT, Served, refusal};
use http_frames::{FrameFault, one_head, stays};

impl Talk {
    /// A piece came.
    pub(super) fn came(&mut self, piece: &[u8])
        requires reading { self.old.state ≡ states.Reading }
        requires stands { StandsForSome self.old }
        requires fits { length piece.now ≤ PIECE }
        requires room { length piece.now + self.old.read ≤ LIMIT }
        ensures { Feeds self.old (told.Bytes piece.entry) self.new }
    {
        stays();
        one_head();
        match self.inbox.add(piece) {
            Ok(()) => {
                self.read += piece.len() as u64;
                self.look();
            }
            Err(_) => self.fail(ConnFault::Memory),
        }
    }

    /// Ends with a fault.
    pub(super) fn fail(&mut self, fault: ConnFault)
        ensures { HasFailed self.old fault self.new }
    {
        self.state = State::Done(Err(fault));
    }

    /// Ends so.
    pub(super) fn end_so(&mut self, end: End)
        ensures { HasEnded self.old end self.new }
    {
        self.state = State::Done(Ok(Served {
            frames: self.frames,
            end,
            short: self.short,
        }));
    }

    /// A read failed.
    pub(super) fn read_failed(&mut self)
        requires reading { self.old.state ≡ states.Reading }
        ensures { Feeds self.old told.ReadFailed self.new }
    {
        stays();
        one_head();
        self.fail(ConnFault::Read);
    }

    /// No more bytes come.
    pub(super) fn end_of_input(&mut self)
        requires reading { self.old.state ≡ states.Reading }
        ensures { Feeds self.old told.EndOfInput self.new }
    {
        stays();
        one_head();
        if self.begins == self.read {
            self.end_so(End::Closed);
        } else {
            self.end_so(End::Cut { at: self.begins });
        }
    }

    /// Looks at the bytes that are not answered yet.
    pub(super) fn look(&mut self)
        requires { HoldsSome self.old.inbox }
        ensures looks { Looks self.old self.new }
        ensures settles { Settles self.new of_nothing [] }
        ensures less { LeavesAtMost (look_work self.old.continued (bytes_left self.old)) self.new }
    {
        match self.inbox.fill() {
            Ok(()) => self.look_first(),
            Err(_) => self.fail(ConnFault::Memory),
        }
    }

    /// Looks whether a `100 Continue` is to be written first.
    fn look_first(&mut self)
        requires holds { HoldsSome self.old.inbox }
        requires filled { IsFilled self.old.inbox }
        ensures looks { Looks self.old self.new }
        ensures settles { Settles self.new of_nothing [] }
        ensures less { LeavesAtMost (look_work self.old.continued (bytes_left self.old)) self.new }
    {
        let waits = self.inbox.waits();
        if is_due(waits, self.continued) {
            self.state = State::Continuing(0);
        } else {
            self.look_on();
        }
    }

    /// Looks at them where no `100 Continue` is to be written first.
    fn look_on(&mut self)
        requires holds { HoldsSome self.old.inbox }
        requires filled { IsFilled self.old.inbox }
        ensures looks { LooksOn self.old self.new }
        ensures settles { Settles self.new of_nothing [] }
        ensures less { LeavesAtMost (begin_work (bytes_left self.old)) self.new }
    {
        stays();
        match self.inbox.see() {
            Seen::More => self.read_on(),
            Seen::Refused(why) => self.refuse(why),
            Seen::Whole(closes) => {
                self.closes = closes;
                self.state = State::Beginning;
            }
        }
    }

    /// Reads on, unless as many bytes were read as are read on a connection.
    fn read_on(&mut self)
        ensures reads { ReadsOn self.old self.new }
        ensures settles { Settles self.new of_nothing [] }
        ensures less { LeavesAtMost (read_work (bytes_left self.old)) self.new }
    {
        stays();
        one_head();
        if self.read == LIMIT {
            self.end_so(End::Limit);
        } else {
            self.state = State::Reading;
        }
    }

    /// Begins to write the response to a request that is refused.
    fn refuse(&mut self, why: FrameFault)
        ensures refuses { Refuses self.old why self.new }
        ensures settles { Settles self.new of_nothing [] }
        ensures less { LeavesAtMost (read_work (bytes_left self.old)) self.new }
    {
        stays();
        match refusal(self.alloc, why) {
            Ok(bytes) => {
                let _length = bytes.as_bytes().len();
                let at = self.begins;
                self.state = State::Writing(Outgoing {
                    bytes,
                    sent: 0,
                    then: Then::End(End::Refused { why, at }),
                    kept: Kept::Nothing,
                });
            }
            Err(_) => self.fail(ConnFault::Memory),
        }
    }
}

/// Whether a `100 Continue` is to be written: a client waits for it, and it was not written.
fn is_due(waits: bool, continued: bool) -> bool
    ensures { result ≡ (waits && not continued) }
{
    waits && !continued
}
