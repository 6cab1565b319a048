//! A script under way, whatever its route is: what it wants, and what each answer leads to.
ghost use Rattle.std.specs.Prelude.{◌≡◌, true, IfSome};
ghost use Rattle.conn_script.specs.Running.{run_awaits};
ghost use Rattle.conn_script.specs.Moving.{run_is_fresh, start_goes_on, Moves, Leaves, AsksFor, AsksForItself, IsPassedOn, IsStartWant};
ghost use Rattle.conn_script.specs.Wanted.{IsAwaited, came, is_wait};
ghost use Rattle.conn_script.specs.declared.turn.Run.TheVariants as run;
ghost use Rattle.conn_script.specs.declared.wants.Answer.TheVariants as told;

use crate::calling::{Calling, call_answered};
use crate::creating::{Creating, enqueued, polled, polls_again, start_answered, start_told};
use crate::deleting::{Deleting, ended, freed, looked_up, quit};
use crate::relaying::{Relaying, exchanged, node_found, touched};
use crate::request::Whole;
use crate::turn::{Run, Turn};
use crate::undoing::Undoing;
use crate::wants::{HubAnswer, PAUSE, Want};
use grid_outside::{ExchangeFault, Reply};
use http_frames::NodeRequest;
use node_client::{Carry, CarryAnswer, CarryWant, quit_request};
use std::alloc::Global;

impl Run {
    /// What is wanted, for the request under way. Nothing changes.
    pub fn wanted<'a>(&'a self, whole: Whole<'a>) -> Want<'a>
        requires { run_is_fresh self.now ≡ true }
        ensures { AsksFor self.now whole.entry result }
    {
        match self {
            Run::Calling(_) => Want::Hub,
            Run::Deleting(deleting) => delete_wanted(deleting),
            Run::Relaying(relaying) => relay_wanted(relaying, whole),
            Run::Creating(creating) => create_wanted(creating),
        }
    }

    /// What is wanted, where no part of the request under way tells it. None: the request is to be passed on; then `wanted` tells it.
    /// Nothing changes.
    pub fn own_want(&self) -> Option<Want<'_>>
        requires { run_is_fresh self.now ≡ true }
        ensures { IfSome result (AsksForItself self.now) }
    {
        match self {
            Run::Calling(_) => Some(Want::Hub),
            Run::Deleting(deleting) => Some(delete_wanted(deleting)),
            Run::Relaying(relaying) => relay_own_want(relaying),
            Run::Creating(creating) => Some(create_wanted(creating)),
        }
    }

    /// Whether the request under way is being passed on, so that what its node answers is awaited.
    pub fn passes_on(&self) -> bool
        ensures { result ≡ true → run_awaits self.now ≡ came }
    {
        match self {
            Run::Relaying(relaying) => relay_passes_on(relaying),
            _ => false,
        }
    }

    /// What the hub's answer to the call that was handed out leads to.
    pub fn answered(self, alloc: Global, answer: HubAnswer, close: bool) -> Turn
        requires { IsAwaited (told.Hub answer) (run_awaits self) }
        ensures { Moves self (told.Hub answer) close result }
    {
        match self {
            Run::Calling(calling) => calling_answered(alloc, calling, answer, close),
            Run::Deleting(deleting) => delete_answered(alloc, deleting, answer, close),
            Run::Relaying(relaying) => relay_answered(alloc, relaying, answer, close),
            Run::Creating(creating) => create_answered(alloc, creating, answer, close),
        }
    }

    /// What the exchange with a node leads to.
    pub fn exchanged(self, alloc: Global, came: Result<Reply, ExchangeFault>, close: bool) -> Turn
        requires { IsAwaited (told.Node came) (run_awaits self) }
        ensures { Moves self (told.Node came) close result }
    {
        match self {
            Run::Deleting(deleting) => delete_exchanged(deleting, &came, close),
            Run::Creating(creating) => create_exchanged(creating, came, close),
            Run::Relaying(relaying) => relay_exchanged(alloc, relaying, came, close),
            Run::Calling(_) => unreachable!(),
        }
    }

    /// What the end of a pause leads to.
    pub fn paused(self, close: bool) -> Turn
        requires { IsAwaited told.Paused (run_awaits self) }
        ensures { Moves self told.Paused close result }
    {
        match self {
            Run::Creating(creating) => create_paused(creating, close),
            _ => unreachable!(),
        }
    }

    /// The client of a New Session that waits has left: its request is to be withdrawn.
    pub fn left(self) -> Undoing
        requires { IsAwaited told.Gone (run_awaits self) }
        ensures { Leaves self result }
    {
        match self {
            Run::Creating(creating) => create_left(creating),
            _ => unreachable!(),
        }
    }

    /// Whether it is a New Session that waits.
    pub fn waits(&self) -> bool
        ensures { result ≡ is_wait (run_awaits self.now) }
    {
        match self {
            Run::Creating(creating) => create_waits(creating),
            _ => false,
        }
    }
}

fn delete_wanted(deleting: &Deleting) -> Want<'_>
    requires { run_is_fresh (run.Deleting deleting.now) ≡ true }
    ensures { AsksForItself (run.Deleting deleting.now) result }
{
    match deleting {
        Deleting::Quit(closing, path) => {
            Want::Node(closing.address(), quit_request(path.as_bytes()))
        }
        _ => Want::Hub,
    }
}

fn relay_wanted<'a>(relaying: &'a Relaying, whole: Whole<'a>) -> Want<'a>
    requires { run_is_fresh (run.Relaying relaying.now) ≡ true }
    ensures { AsksFor (run.Relaying relaying.now) whole.entry result }
{
    match relaying {
        Relaying::Exchange(address, target) => {
            Want::Node(*address, relay_request(whole, target.as_bytes()))
        }
        _ => Want::Hub,
    }
}

fn relay_own_want(relaying: &Relaying) -> Option<Want<'_>>
    requires { run_is_fresh (run.Relaying relaying.now) ≡ true }
    ensures { IfSome result (AsksForItself (run.Relaying relaying.now)) }
{
    match relaying {
        Relaying::Exchange(_, _) => None,
        _ => Some(Want::Hub),
    }
}

fn relay_passes_on(relaying: &Relaying) -> bool
    ensures { result ≡ true → run_awaits (run.Relaying relaying.now) ≡ came }
{
    matches!(relaying, Relaying::Exchange(_, _))
}

/// The request of the client, as it is passed on.
fn relay_request<'a>(whole: Whole<'a>, target: &'a [u8]) -> NodeRequest<'a>
    ensures { IsPassedOn whole.entry target.now result }
{
    let found = whole.head.find_four(
        b"accept",
        b"accept-encoding",
        b"content-type",
        b"content-encoding",
    );
    NodeRequest {
        method: whole.method,
        target,
        accept: found.first,
        accept_encoding: found.second,
        content_type: found.third,
        content_encoding: found.fourth,
        body: whole.body,
    }
}

fn create_wanted(creating: &Creating) -> Want<'_>
    requires { run_is_fresh (run.Creating creating.now) ≡ true }
    ensures { AsksForItself (run.Creating creating.now) result }
{
    match creating {
        Creating::Pausing(_) => Want::Pause(PAUSE),
        Creating::Starting(_, carry) => start_wanted(carry),
        _ => Want::Hub,
    }
}

/// What a start wants that is not over.
fn start_wanted(carry: &Carry) -> Want<'_>
    requires { start_goes_on carry.now ≡ true }
    ensures { IsStartWant carry.now result }
{
    match carry.next() {
        CarryWant::Node { address, request } => Want::Node(address, request),
        CarryWant::Done(_) => unreachable!(),
        _ => Want::Hub,
    }
}

fn calling_answered(alloc: Global, calling: Calling, answer: HubAnswer, close: bool) -> Turn
    requires { IsAwaited (told.Hub answer) (run_awaits (run.Calling calling)) }
    ensures { Moves (run.Calling calling) (told.Hub answer) close result }
{
    match calling {
        Calling::Asked(asked) => call_answered(alloc, asked, answer, close),
        Calling::Ask(_, _) => unreachable!(),
    }
}

fn delete_answered(alloc: Global, deleting: Deleting, answer: HubAnswer, close: bool) -> Turn
    requires { IsAwaited (told.Hub answer) (run_awaits (run.Deleting deleting)) }
    ensures { Moves (run.Deleting deleting) (told.Hub answer) close result }
{
    match deleting {
        Deleting::LookingUp(session) => looked_up(alloc, session, answer, close),
        Deleting::Ending(session, binding) => ended(alloc, session, binding, answer, close),
        Deleting::Freeing(quitted) => freed(alloc, quitted, answer, close),
        _ => unreachable!(),
    }
}

fn relay_answered(alloc: Global, relaying: Relaying, answer: HubAnswer, close: bool) -> Turn
    requires { IsAwaited (told.Hub answer) (run_awaits (run.Relaying relaying)) }
    ensures { Moves (run.Relaying relaying) (told.Hub answer) close result }
{
    match relaying {
        Relaying::LookingUp(session, target) => node_found(alloc, session, target, answer, close),
        Relaying::Touching(session, binding, address, target) => {
            touched(alloc, session, binding, address, target, answer, close)
        }
        _ => unreachable!(),
    }
}

fn create_answered(alloc: Global, creating: Creating, answer: HubAnswer, close: bool) -> Turn
    requires { IsAwaited (told.Hub answer) (run_awaits (run.Creating creating)) }
    ensures { Moves (run.Creating creating) (told.Hub answer) close result }
{
    match creating {
        Creating::Enqueuing => enqueued(alloc, answer, close),
        Creating::Polling(request) => polled(alloc, request, answer, close),
        Creating::Starting(ticket, carry) => start_answered(alloc, ticket, carry, answer),
        _ => unreachable!(),
    }
}

fn delete_exchanged(deleting: Deleting, came: &Result<Reply, ExchangeFault>, close: bool) -> Turn
    requires { IsAwaited (told.Node came.now) (run_awaits (run.Deleting deleting)) }
    ensures { Moves (run.Deleting deleting) (told.Node came.now) close result }
{
    match deleting {
        Deleting::Quit(closing, _) => quit(closing, came),
        _ => unreachable!(),
    }
}

fn create_exchanged(creating: Creating, came: Result<Reply, ExchangeFault>, close: bool) -> Turn
    requires { IsAwaited (told.Node came) (run_awaits (run.Creating creating)) }
    ensures { Moves (run.Creating creating) (told.Node came) close result }
{
    match creating {
        Creating::Starting(ticket, carry) => start_told(ticket, carry, CarryAnswer::Node(came)),
        _ => unreachable!(),
    }
}

fn relay_exchanged(
    alloc: Global,
    relaying: Relaying,
    came: Result<Reply, ExchangeFault>,
    close: bool,
) -> Turn
    requires { IsAwaited (told.Node came) (run_awaits (run.Relaying relaying)) }
    ensures { Moves (run.Relaying relaying) (told.Node came) close result }
{
    match relaying {
        Relaying::Exchange(_, _) => exchanged(alloc, came, close),
        _ => unreachable!(),
    }
}

fn create_paused(creating: Creating, close: bool) -> Turn
    requires { IsAwaited told.Paused (run_awaits (run.Creating creating)) }
    ensures { Moves (run.Creating creating) told.Paused close result }
{
    match creating {
        Creating::Pausing(ticket) => polls_again(ticket),
        _ => unreachable!(),
    }
}

fn create_left(creating: Creating) -> Undoing
    requires { IsAwaited told.Gone (run_awaits (run.Creating creating)) }
    ensures { Leaves (run.Creating creating) result }
{
    match creating {
        Creating::Pausing(ticket) => Undoing::Withdraw(ticket),
        _ => unreachable!(),
    }
}

fn create_waits(creating: &Creating) -> bool
    ensures { result ≡ is_wait (run_awaits (run.Creating creating.now)) }
{
    matches!(creating, Creating::Pausing(_))
}
