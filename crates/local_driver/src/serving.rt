//! The driver: it asks the connection what it wants, does that, and hands in what came of it.
ghost use Rattle.std.specs.Prelude.{◌≡◌, ◌<◌, true, length, IfOk};
ghost use Rattle.grid_types.specs.Legal.{legal};
ghost use Rattle.request_laws.specs.Laws.{CallsKeepNewest, DeadlinesAreMoments, PollsAreEarly, StartsRunOut};
ghost use Rattle.hub_core.specs.HubView.{past};
ghost use Rattle.hub_conn.specs.CallLaws.{CallLaws};
ghost use Rattle.hub_conn.specs.WantLaws.{WantLaws};
ghost use Rattle.hub_conn.specs.Work.{work};
ghost use Rattle.own_hub.specs.Own.{GoesOrStops};
ghost use Rattle.local_driver.specs.World.{world_of};
ghost use Rattle.local_driver.specs.Served.{Outside, ServedLocally, outside_of};
ghost use Rattle.local_driver.specs.Serving.{EndedSo, FallsTo, Serving, Turned, outlook_of};

use crate::before::begin;
use crate::calls::make;
use grid_outside::{Clock, Link, NodeLink, PIECE_BYTES};
use grid_types::NodeNo;
use hub_conn::{
    Answer, ConnFault, Served, Talk, Want, calls_are_rightful, conversations_find_spent_last,
    wants_come_in_order,
};
use hub_core::LocalHub;
use hub_links::{read_piece, write_some};
use own_hub::OwnHub;
use request_laws::{calls_keep_the_newest_request, polls_are_early, starts_run_out};
use std::alloc::Global;

/// The history of a hub is legal.
fn is_legal<H: OwnHub>(hub: &H)
    ensures { legal (H.own.shown hub.now).config (past (H.own.shown hub.now)) ≡ true }
{
    let _journal = hub.journal();
}

/// The laws by which each turn of the driver leads on, and all turns to an end.
fn laws_hold()
    ensures calls { CallLaws }
    ensures wants { WantLaws }
    ensures starts { StartsRunOut }
    ensures early { PollsAreEarly }
    ensures moments { DeadlinesAreMoments }
    ensures newest { CallsKeepNewest }
{
    calls_are_rightful();
    wants_come_in_order();
    starts_run_out();
    polls_are_early();
    calls_keep_the_newest_request();
}

/// Does what the connection wants. Some is how it ended.
fn turn<H: OwnHub, L: Link, N: NodeLink, C: Clock>(
    alloc: Global,
    hub: &mut H,
    own: &[NodeNo],
    talk: &mut Talk,
    buffer: &mut [u8],
    link: &mut L,
    nodes: &mut N,
    clock: &mut C,
) -> Result<Option<Result<Served, ConnFault>>, H::Fault>
    requires open { H.own.IsOpen hub.old }
    requires room { 0 < length buffer.old }
    requires serving { (first : Outside N C) × Serving N.gives C.gives own.now first talk.old
        (outside_of (world_of (H.own.shown hub.old) nodes.old clock.old (C.view clock.old))
        (L.view link.old)) }
    ensures turned { IfOk result (λ ended. Turned N.gives C.gives own.now talk.old
        (outside_of (world_of (H.own.shown hub.old) nodes.old clock.old (C.view clock.old))
        (L.view link.old)) ended talk.new
        (outside_of (world_of (H.own.shown hub.new) nodes.new clock.new (C.view clock.new))
        (L.view link.new))) }
    ensures less { IfOk result (λ ended. FallsTo ended
        (work talk.old (outlook_of
        (world_of (H.own.shown hub.old) nodes.old clock.old (C.view clock.old))))
        (work talk.new (outlook_of
        (world_of (H.own.shown hub.new) nodes.new clock.new (C.view clock.new))))) }
    ensures goes { GoesOrStops H.own hub.old result hub.new }
    ensures same { L.Same link.old link.new }
{
    laws_hold();
    is_legal(hub);
    match talk.next() {
        Want::Read(most) => {
            let answer = read_piece(link, most, buffer);
            talk.feed(answer);
            Ok(None)
        }
        Want::Write(bytes) => {
            let answer = write_some(link, bytes);
            talk.feed(answer);
            Ok(None)
        }
        Want::Begin => {
            if !begin(alloc, hub, own, nodes, clock)? {
                return Ok(Some(Err(ConnFault::Memory)));
            }
            talk.feed(Answer::Begun);
            Ok(None)
        }
        Want::Hub => {
            let call = talk.hub_call();
            let at = clock.now();
            let answer = make(hub, call, at)?;
            is_legal(hub);
            talk.feed(Answer::Hub(answer));
            Ok(None)
        }
        Want::Node(address, request) => {
            let came = nodes.exchange(alloc, &address, &request);
            talk.feed(Answer::Node(came));
            Ok(None)
        }
        Want::Pause(ms) => {
            let _now = clock.pause(ms);
            talk.feed(Answer::Paused);
            Ok(None)
        }
        Want::Done(result) => Ok(Some(result)),
    }
}

/// Serves the connection turn after turn, until it has ended.
fn serve_to_end<H: OwnHub, L: Link, N: NodeLink, C: Clock>(
    alloc: Global,
    hub: &mut H,
    own: &[NodeNo],
    link: &mut L,
    nodes: &mut N,
    clock: &mut C,
) -> Result<Result<Served, ConnFault>, H::Fault>
    requires { H.own.IsOpen hub.old }
    ensures ended { IfOk result (λ served. EndedSo N.gives C.gives own.now
        (outside_of (world_of (H.own.shown hub.old) nodes.old clock.old (C.view clock.old))
        (L.view link.old)) served
        (outside_of (world_of (H.own.shown hub.new) nodes.new clock.new (C.view clock.new))
        (L.view link.new))) }
    ensures goes { GoesOrStops H.own hub.old result hub.new }
    ensures same { L.Same link.old link.new }
{
    let mut talk = Talk::new(alloc);
    let mut buffer = [0; PIECE_BYTES];
    'turns: loop {
        let ended = turn(alloc, hub, own, &mut talk, &mut buffer, link, nodes, clock)?;
        if let Some(result) = ended {
            return Ok(result);
        }
    }
}

/// Serves one connection to its end by a hub of one caller, as `serve_local` says where the answer is Ok. Err is the fault for which
/// the hub takes no calls any more: the connection was left where it stood.
pub fn serve_by<H: OwnHub, L: Link, N: NodeLink, C: Clock>(
    alloc: Global,
    hub: &mut H,
    own: &[NodeNo],
    link: &mut L,
    nodes: &mut N,
    clock: &mut C,
) -> Result<Result<Served, ConnFault>, H::Fault>
    requires { H.own.IsOpen hub.old }
    ensures served { IfOk result (λ served. ServedLocally N.gives C.gives own.now
        (outside_of (world_of (H.own.shown hub.old) nodes.old clock.old (C.view clock.old))
        (L.view link.old)) served
        (outside_of (world_of (H.own.shown hub.new) nodes.new clock.new (C.view clock.new))
        (L.view link.new))) }
    ensures goes { GoesOrStops H.own hub.old result hub.new }
    ensures same { L.Same link.old link.new }
{
    let result = serve_to_end(alloc, hub, own, link, nodes, clock)?;
    conversations_find_spent_last();
    is_legal(hub);
    Ok(result)
}

/// Serves one connection to its end by a hub of one thread. Before each request the nodes `own`, which stand in the caller's program,
/// give a sign of life, the hub sweeps, and sessions that were idle for too long are ended.
///
/// What was read, all calls of the hub, all that the nodes were asked, all pauses and what was written are one conversation. Its
/// responses are those to its requests, in order, each by answers of the hub at points of its history, which gained just the entries of
/// these calls. The moment of each call is one that the clock gave where it was asked behind the step before.
///
/// It always ends, as far as the calls of the link, the nodes and the clock do. Err tells that a read or a write failed, or that memory
/// was wanted where no response tells it: for bytes that no answered request holds, on a connection that neither a request nor the end of
/// input had ended. A session that was created for a response that can't be written is ended.
pub fn serve_local<L: Link, N: NodeLink, C: Clock>(
    alloc: Global,
    hub: &mut LocalHub,
    own: &[NodeNo],
    link: &mut L,
    nodes: &mut N,
    clock: &mut C,
) -> Result<Served, ConnFault>
    ensures served { ServedLocally N.gives C.gives own.now
        (outside_of (world_of hub.old nodes.old clock.old (C.view clock.old)) (L.view link.old))
        result
        (outside_of (world_of hub.new nodes.new clock.new (C.view clock.new)) (L.view link.new)) }
    ensures same { L.Same link.old link.new }
{
    match serve_by(alloc, hub, own, link, nodes, clock) {
        Ok(result) => result,
        Err(fault) => match fault {},
    }
}
