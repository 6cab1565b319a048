//! The script of the request under way.
ghost use Rattle.std.specs.Prelude.{◌≡◌, ◌⊎◌, ◌||◌, true, []};
ghost use Rattle.hub_conn.specs.Work.{LeavesUndoing, TurnsTo};
ghost use Rattle.conn_script.specs.Wanted.{IsAwaited};
ghost use Rattle.conn_script.specs.Moving.{IsReady, turn_is_fresh, turn_tokens};
ghost use Rattle.conn_script.specs.Undo.{undo_goes_on};
ghost use Rattle.conn_script.specs.declared.wants.Answer.TheVariants as told;
ghost use Rattle.conn_script.specs.declared.undoing.Undoing.TheVariants as undo;
ghost use Rattle.hub_conn.specs.declared.talk.State.TheVariants as states;
ghost use Rattle.hub_conn.specs.Talk.{StandsForSome, awaited, Feeds, Settles, SettlesUndoing, of_nothing, IsAnswerable, Rests, FirstOf, GoesOn, HasUndone, TurnWrites};
ghost use Rattle.hub_conn.specs.Inbox.{HoldsSomeWhole};

use crate::talk::{Kept, State, Talk};
use conn_script::{ConnFault, HubAnswer, Turn, Undoing, first_turn, first_turns_are_within};
use grid_outside::{ExchangeFault, Reply};
use http_frames::stays;
use router_core::Router;

impl Talk {
    /// What goes before each request was done.
    pub(super) fn begun(&mut self)
        requires beginning { self.old.state ≡ states.Beginning }
        requires stands { StandsForSome self.old }
        ensures { Feeds self.old told.Begun self.new }
    {
        first_turns_are_within();
        self.keep_router();
        let turn = self.first();
        self.turn(turn);
    }

    /// Makes the table of paths, unless it is there or there is no memory for it.
    fn keep_router(&mut self)
        ensures rests { Rests self.old self.new }
        ensures state { self.new.state ≡ self.old.state }
    {
        if self.router.is_none() {
            self.router = Router::new(self.alloc).ok();
        }
    }

    /// The first turn of the request at the front.
    fn first(&self) -> Turn
        requires { HoldsSomeWhole self.now.inbox }
        ensures turns { FirstOf self.now result }
        ensures ready { IsReady result [] }
    {
        match &self.router {
            Some(router) => first_turn(self.alloc, router, self.inbox.whole(), self.closes),
            None => Turn::Lacks,
        }
    }

    /// Goes on with the script, or answers the request.
    fn turn(&mut self, turn: Turn)
        requires front { IsAnswerable self.old }
        requires fresh { turn_is_fresh turn ≡ true }
        ensures goes { GoesOn self.old turn self.new }
        ensures settles { Settles self.new of_nothing (turn_tokens turn) }
        ensures less { TurnsTo self.old turn self.new }
        ensures writes { TurnWrites turn self.new }
    {
        stays();
        match turn {
            Turn::Go(run, short) => {
                self.short = either(self.short, short);
                self.state = State::Running(run);
            }
            Turn::Respond(bytes) => self.respond(bytes, false, Kept::Nothing),
            Turn::RespondLast(bytes, short) => {
                self.short = either(self.short, short);
                self.respond(bytes, true, Kept::Nothing);
            }
            Turn::Created(bytes, session, binding) => {
                self.respond(bytes, false, Kept::Created(session, binding));
            }
            Turn::Undo(session, binding) => self.undo(ConnFault::Memory, session, binding),
            Turn::Lacks => self.fail(ConnFault::Memory),
        }
    }

    /// The hub has answered.
    pub(super) fn answered(&mut self, answer: HubAnswer)
        requires awaits { IsAwaited (told.Hub answer) (awaited self.old) }
        requires stands { StandsForSome self.old }
        ensures { Feeds self.old (told.Hub answer) self.new }
    {
        match self.take_state() {
            State::Running(run) => {
                let turn = run.answered(self.alloc, answer, self.closes);
                self.turn(turn);
            }
            State::Undoing(fault, undoing) => self.undone(fault, undoing.answered(answer)),
            _ => unreachable!(),
        }
    }

    /// An exchange with a node is over.
    pub(super) fn exchanged(&mut self, came: Result<Reply, ExchangeFault>)
        requires awaits { IsAwaited (told.Node came) (awaited self.old) }
        requires stands { StandsForSome self.old }
        ensures { Feeds self.old (told.Node came) self.new }
    {
        match self.take_state() {
            State::Running(run) => {
                let turn = run.exchanged(self.alloc, came, self.closes);
                self.turn(turn);
            }
            State::Undoing(fault, undoing) => self.undone(fault, undoing.exchanged(&came)),
            _ => unreachable!(),
        }
    }

    /// A pause is over.
    pub(super) fn paused(&mut self)
        requires awaits { IsAwaited told.Paused (awaited self.old) }
        requires stands { StandsForSome self.old }
        ensures { Feeds self.old told.Paused self.new }
    {
        match self.take_state() {
            State::Running(run) => {
                let turn = run.paused(self.closes);
                self.turn(turn);
            }
            State::Undoing(fault, undoing) => self.undone(fault, undoing.paused()),
            _ => unreachable!(),
        }
    }

    /// The client of the New Session that waits has left.
    pub(super) fn gone(&mut self)
        requires awaits { IsAwaited told.Gone (awaited self.old) }
        requires stands { StandsForSome self.old }
        ensures { Feeds self.old told.Gone self.new }
    {
        stays();
        match self.take_state() {
            State::Running(run) => self.undone(ConnFault::Read, run.left()),
            _ => unreachable!(),
        }
    }

    /// Goes on with what is left to do after the fault, or ends with it.
    fn undone(&mut self, fault: ConnFault, undoing: Undoing)
        requires { (undoing ≡ undo.Over) ⊎ (undo_goes_on undoing ≡ true) }
        ensures undone { HasUndone fault undoing self.new }
        ensures settles { SettlesUndoing self.new fault undoing }
        ensures less { LeavesUndoing undoing self.new }
    {
        match undoing {
            Undoing::Over => self.fail(fault),
            left => self.state = State::Undoing(fault, left),
        }
    }
}

fn either(a: bool, b: bool) -> bool
    ensures { result ≡ (a || b) }
{
    a || b
}
