//! One start of a session at a node.
ghost use Rattle.std.specs.Prelude.{◌≡◌, ◌∷◌, ◌||◌, Some, true, IsTrue, IfOk, IfErr, Err};
ghost use Rattle.node_client.specs.Steps.{met_want, is_lack, lacked};
ghost use Rattle.node_client.specs.Start.{FailsAfter};
ghost use Rattle.node_client.specs.Carrying.{NamedBy};

use crate::path::SessionPath;
use crate::reply::session_of;
use crate::requests::{quit_request, start_request};
use crate::wants::{CarryAnswer, CarryEnd, CarryWant};
use grid_outside::{ExchangeFault, Reply};
use grid_types::{Bytes, Caps, FailWhy, SessionId};
use hub_core::{Binding, Closing, Reservation};
use std::alloc::Global;
use wd_bodies::start_body;

#[derive(Drop)]
enum State {
    /// The node is to be asked for a session with this body.
    Asking(Reservation, Bytes),
    ToBind(Reservation, SessionId, Caps),
    /// The call was taken.
    Binding,
    /// A bind found no memory: the session of this path is to be ended.
    Returning(Reservation, SessionPath),
    ToFail(Reservation, FailWhy),
    Failing,
    /// The hub does not keep the session of this path: it is to be ended.
    Quitting(Closing, SessionPath),
    ToFree(Closing),
    Freeing,
    Done(CarryEnd),
}

/// A start of a session at a node for a reservation: it says what it wants, and is told what came
/// of that. It does nothing outside itself.
///
/// It spends the reservation, and the closing where it gets one, before it is done.
#[derive(Drop)]
pub struct Carry {
    alloc: Global,
    state: State,
    short: bool,
}

fn is_lack(why: &FailWhy) -> bool
    ensures { result ≡ is_lack why.now }
{
    matches!(why, FailWhy::NoMemory)
}

fn lacked(came: &Result<Reply, ExchangeFault>) -> bool
    ensures { result ≡ lacked came.now }
{
    match came {
        Err(ExchangeFault::Memory) => true,
        Err(ExchangeFault::Unreachable) => false,
        Ok(_) => false,
    }
}

/// Why a start fails that reached no node.
fn unasked(fault: ExchangeFault) -> FailWhy
    ensures { FailsAfter (Err fault) result }
{
    match fault {
        ExchangeFault::Unreachable => FailWhy::Unreachable,
        ExchangeFault::Memory => FailWhy::NoMemory,
    }
}

/// The session that came of the request for one, or why the start fails.
fn session_from(
    alloc: Global,
    came: Result<Reply, ExchangeFault>,
) -> Result<(SessionId, Caps), FailWhy>
    ensures ok { IfOk result (λ s. NamedBy came s.0 s.1) }
    ensures err { IfErr result (λ w. FailsAfter came w) }
{
    match came {
        Ok(Reply::Http(reply)) => session_of(alloc, &reply),
        Ok(Reply::NotHttp(_)) => Err(FailWhy::NotHttp),
        Err(fault) => Err(unasked(fault)),
    }
}

#[tactic(auto, unfolding(crate::specs::Carrying::Stands, crate::specs::Carrying::awaited, crate::specs::Carrying::held, crate::specs::Carrying::is_fresh, crate::specs::Carrying::work, crate::specs::Held::carry_tokens))]
impl Carry {
    ghost use Rattle.grid_types.specs.Permitted.{is_start_failure};
    ghost use Rattle.node_client.specs.Held.{of_reservation, of_closing, carry_tokens};
    ghost use Rattle.node_client.specs.Places.{at_bind, at_fail, at_free, gives_up_at};
    ghost use Rattle.node_client.specs.declared.wants.CarryAnswer.TheVariants as answers;
    ghost use Rattle.node_client.specs.declared.carry.State.TheVariants as states;
    ghost use Rattle.node_client.specs.Carrying.{Answered, Closed, Kind, OfEach, IsNew, HandsOut, Takes, Feeds, is_fresh, held, awaited, kind_of};

    /// A start for the reservation.
    pub fn new(alloc: Global, reservation: Reservation) -> Carry
        ensures { IsNew result reservation }
    {
        match start_body(alloc, reservation.wanted()) {
            Ok(body) => Carry {
                alloc,
                state: State::Asking(reservation, body),
                short: false,
            },
            Err(_) => Carry {
                alloc,
                state: State::ToFail(reservation, FailWhy::NoMemory),
                short: true,
            },
        }
    }

    /// Whether it went on after it was out of memory: before its bind, in a bind, or in an exchange that
    /// ends a session.
    pub fn short(&self) -> bool
        ensures { OfEach self.now (λ r place steps. result
            ≡ (met_want steps || gives_up_at place)) }
    {
        self.short
    }

    /// What is wanted. Nothing changes.
    pub fn next(&self) -> CarryWant<'_>
        requires { is_fresh self.now ≡ true }
        ensures { HandsOut self.now result }
    {
        match &self.state {
            State::Asking(reservation, body) => CarryWant::Node {
                address: reservation.address(),
                request: start_request(body.as_bytes()),
            },
            State::Returning(reservation, path) => CarryWant::Node {
                address: reservation.address(),
                request: quit_request(path.as_bytes()),
            },
            State::Quitting(closing, path) => CarryWant::Node {
                address: closing.address(),
                request: quit_request(path.as_bytes()),
            },
            State::ToBind(_, _, _) => CarryWant::Bind,
            State::ToFail(_, _) => CarryWant::Fail,
            State::ToFree(_) => CarryWant::Freed,
            State::Done(end) => CarryWant::Done(*end),
            State::Binding => unreachable!(),
            State::Failing => unreachable!(),
            State::Freeing => unreachable!(),
        }
    }

    /// Hands out the bind that is wanted.
    pub fn take_bind(&mut self) -> (Reservation, SessionId, Caps)
        requires { held self.old ≡ Some Kind.Bind }
        ensures takes { Takes self.old Kind.Bind self.new }
        ensures call { OfEach self.old (λ r place steps. (r ≡ result.0)
            × (place ≡ at_bind result.1 result.2)) }
        ensures tokens { carry_tokens self.old ≡ of_reservation result.0 ∷ carry_tokens self.new }
    {
        match std::mem::replace(&mut self.state, State::Binding) {
            State::ToBind(reservation, session, caps) => (reservation, session, caps),
            _ => unreachable!(),
        }
    }

    /// Hands out the failure that is wanted.
    pub fn take_fail(&mut self) -> (Reservation, FailWhy)
        requires { held self.old ≡ Some Kind.Fail }
        ensures takes { Takes self.old Kind.Fail self.new }
        ensures call { OfEach self.old (λ r place steps. (r ≡ result.0)
            × (place ≡ at_fail result.1)) }
        ensures tokens { carry_tokens self.old ≡ of_reservation result.0 ∷ carry_tokens self.new }
        ensures cause { OfEach self.old (λ r place steps. IsTrue (is_start_failure result.1)) }
    {
        match std::mem::replace(&mut self.state, State::Failing) {
            State::ToFail(reservation, why) => (reservation, why),
            _ => unreachable!(),
        }
    }

    /// Hands out the closing whose slot is to be freed.
    pub fn take_closing(&mut self) -> Closing
        requires { held self.old ≡ Some Kind.Freed }
        ensures takes { Takes self.old Kind.Freed self.new }
        ensures call { OfEach self.old (λ r place steps. place ≡ at_free result) }
        ensures tokens { carry_tokens self.old ≡ of_closing result ∷ carry_tokens self.new }
    {
        match std::mem::replace(&mut self.state, State::Freeing) {
            State::ToFree(closing) => closing,
            _ => unreachable!(),
        }
    }

    /// Takes the answer to what is wanted.
    pub fn feed(&mut self, answer: CarryAnswer)
        requires { awaited self.old ≡ Some (kind_of answer) }
        ensures { Feeds self.old answer self.new }
    {
        match answer {
            CarryAnswer::Node(came) => self.exchanged(came),
            CarryAnswer::Bound(binding) => self.bound(binding),
            CarryAnswer::Failed(_) => self.state = State::Done(CarryEnd::NotBound),
            CarryAnswer::Freed => self.state = State::Done(CarryEnd::NotBound),
        }
    }

    fn exchanged(&mut self, came: Result<Reply, ExchangeFault>)
        requires { awaited self.old ≡ Some Kind.Exchange }
        ensures { Feeds self.old (answers.Node came) self.new }
    {
        match std::mem::replace(&mut self.state, State::Failing) {
            State::Asking(reservation, _) => self.answered(reservation, came),
            State::Returning(reservation, _) => self.give_up(reservation, FailWhy::NoMemory),
            State::Quitting(closing, _) => {
                self.short = self.short || lacked(&came);
                self.state = State::ToFree(closing);
            }
            _ => unreachable!(),
        }
    }

    /// What came of the request for a session.
    fn answered(&mut self, reservation: Reservation, came: Result<Reply, ExchangeFault>)
        ensures { Answered self.old.short reservation came self.new }
    {
        match session_from(self.alloc, came) {
            Ok((session, caps)) => self.state = State::ToBind(reservation, session, caps),
            Err(why) => self.give_up(reservation, why),
        }
    }

    fn give_up(&mut self, reservation: Reservation, why: FailWhy)
        ensures state { self.new.state ≡ states.ToFail reservation why }
        ensures short { self.new.short ≡ (self.old.short || is_lack why) }
    {
        self.short = self.short || is_lack(&why);
        self.state = State::ToFail(reservation, why);
    }

    fn bound(&mut self, binding: Binding)
        requires { awaited self.old ≡ Some Kind.Bind }
        ensures { Feeds self.old (answers.Bound binding) self.new }
    {
        match binding {
            Binding::Bound(_) => self.state = State::Done(CarryEnd::Bound),
            Binding::Late(closing) => self.close(closing),
            Binding::NodeGone(closing) => self.close(closing),
            Binding::Duplicate(closing) => self.close(closing),
            Binding::Mismatch(closing) => self.close(closing),
            Binding::Memory(reservation, session) => {
                self.short = true;
                self.state = State::Returning(reservation, SessionPath::of(&session));
            }
        }
    }

    /// The hub does not keep the session.
    fn close(&mut self, closing: Closing)
        ensures { Closed self.old.short closing self.new }
    {
        if closing.quit() {
            let path = SessionPath::of(&closing.session());
            self.state = State::Quitting(closing, path);
        } else {
            self.state = State::ToFree(closing);
        }
    }
}
