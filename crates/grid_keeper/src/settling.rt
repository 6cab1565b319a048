//! What is done with the tokens that are open after a hub was made again: each is spent, in an order that the rows alone
//! determine.
ghost use Rattle.std.specs.Prelude.{◌≡◌, ◌≤◌, false, IsErrOf, OnErr, OnOk, Some};
ghost use Rattle.grid_types.specs.declared.entry.FailWhy.TheVariants as why;
ghost use Rattle.grid_types.specs.Calls.{Call, Reply};
ghost use Rattle.grid_outside.specs.Counts.{Rose};
ghost use Rattle.hub_core.specs.HubView.{past};
ghost use Rattle.hub_core.specs.Serves.{MayCall};
ghost use Rattle.grid_keeper.specs.declared.kept_hub.KeptFault.TheVariants as fault;
ghost use Rattle.grid_keeper.specs.Holds.{HoldsAll};
ghost use Rattle.grid_keeper.specs.Keeping.{IsOpen, KeptServes, WentAlong};
ghost use Rattle.grid_keeper.specs.Settling.{AllStay, Failed, Freed, IsIdle, IsReady, LacksClosings, LacksReservations, NoTicket, NoneHeld, OthersStay, QuitsOn, TicketsBut, TicketsFrom, Took};

use crate::kept_hub::{KeptFault, KeptHub};
use crate::left::Left;
use grid_outside::{Clock, ExchangeFault, NodeLink};
use grid_types::{FailWhy, Outcome, ReqNo, SessionId, history_laws};
use hub_core::{Closing, Ending, Polled, Ticket};
use node_client::{SessionPath, quit_request};
use row_keeper::Keeper;
use std::alloc::Global;
use std::collections::BTreeMap;
use token_laws::tokens_come_from_replies;

/// Has the node of the closing end its session, where that is called for. False is out of memory: it was not asked.
fn ask_to_end<N: NodeLink>(alloc: Global, closing: &Closing, nodes: &mut N) -> bool
    ensures { QuitsOn N.gives nodes.old nodes.new }
{
    if closing.quit() {
        let path = SessionPath::of(&closing.session());
        let came = nodes.exchange(alloc, &closing.address(), &quit_request(path.as_bytes()));
        return !matches!(came, Err(ExchangeFault::Memory));
    }
    true
}

/// Has the session of the closing ended at its node, and frees its slot.
fn finish<K: Keeper, N: NodeLink>(
    alloc: Global,
    hub: &mut KeptHub<K>,
    closing: Closing,
    nodes: &mut N,
) -> Result<(), KeptFault>
    requires open { IsOpen K.disk hub.old }
    requires may { MayCall (past hub.old.hub) 0 (Call.freed closing) }
    ensures went { WentAlong K.disk hub.old hub.new }
    ensures asks { QuitsOn N.gives nodes.old nodes.new }
    ensures freed { OnOk result (KeptServes K.disk hub.old (Call.freed closing) 0
        (Some Reply.is_freed) hub.new) }
    ensures closed { OnErr result (hub.new.is_open ≡ false) }
    ensures later { K.faults hub.old.keeper ≤ K.faults hub.new.keeper }
    ensures cause { IsErrOf result fault.Keeper →
        Rose (K.faults hub.old.keeper) (K.faults hub.new.keeper) }
{
    if !ask_to_end(alloc, &closing, nodes) {
        drop(closing);
        return Err(hub.close());
    }
    hub.freed(closing)
}

/// Spends one reservation, as one whose node can't be reached. False: there is none.
fn fail_next<K: Keeper, C: Clock>(
    hub: &mut KeptHub<K>,
    left: &mut Left,
    order: &mut BTreeMap<u64, ReqNo>,
    clock: &mut C,
) -> Result<bool, KeptFault>
    requires { IsReady K.disk hub.old left.old }
    ensures went { WentAlong K.disk hub.old hub.new }
    ensures step { Failed K.disk hub.new left.new result }
    ensures later { K.faults hub.old.keeper ≤ K.faults hub.new.keeper }
    ensures cause { IsErrOf result fault.Keeper →
        Rose (K.faults hub.old.keeper) (K.faults hub.new.keeper) }
{
    history_laws();
    tokens_come_from_replies();
    let _legal = hub.journal();
    let Some(reservation) = left.pop_by(order) else {
        return Ok(false);
    };
    hub.fail(reservation, FailWhy::Unreachable, clock.now())?;
    Ok(true)
}

fn fail_all<K: Keeper, C: Clock>(
    alloc: Global,
    hub: &mut KeptHub<K>,
    left: &mut Left,
    clock: &mut C,
) -> Result<(), KeptFault>
    requires { IsReady K.disk hub.old left.old }
    ensures went { WentAlong K.disk hub.old hub.new }
    ensures ready { OnOk result (IsReady K.disk hub.new left.new) }
    ensures none { OnOk result (LacksReservations left.new) }
    ensures closed { OnErr result (hub.new.is_open ≡ false) }
    ensures later { K.faults hub.old.keeper ≤ K.faults hub.new.keeper }
    ensures cause { IsErrOf result fault.Keeper →
        Rose (K.faults hub.old.keeper) (K.faults hub.new.keeper) }
{
    let Ok(mut order) = left.by_slot(alloc) else {
        return Err(hub.close());
    };
    for _ in 0..u64::MAX {
        if !fail_next(hub, left, &mut order, clock)? {
            return Ok(());
        }
    }
    Err(hub.close())
}

/// Spends one closing. False: there is none.
fn free_next<K: Keeper, N: NodeLink>(
    alloc: Global,
    hub: &mut KeptHub<K>,
    left: &mut Left,
    nodes: &mut N,
) -> Result<bool, KeptFault>
    requires ready { IsReady K.disk hub.old left.old }
    requires none { LacksReservations left.old }
    ensures went { WentAlong K.disk hub.old hub.new }
    ensures asks { QuitsOn N.gives nodes.old nodes.new }
    ensures step { Freed K.disk hub.new left.new result }
    ensures later { K.faults hub.old.keeper ≤ K.faults hub.new.keeper }
    ensures cause { IsErrOf result fault.Keeper →
        Rose (K.faults hub.old.keeper) (K.faults hub.new.keeper) }
{
    tokens_come_from_replies();
    let _legal = hub.journal();
    let Some(closing) = left.pop_closing() else {
        return Ok(false);
    };
    finish(alloc, hub, closing, nodes)?;
    Ok(true)
}

fn free_all<K: Keeper, N: NodeLink>(
    alloc: Global,
    hub: &mut KeptHub<K>,
    left: &mut Left,
    nodes: &mut N,
) -> Result<(), KeptFault>
    requires ready { IsReady K.disk hub.old left.old }
    requires none { LacksReservations left.old }
    ensures went { WentAlong K.disk hub.old hub.new }
    ensures asks { QuitsOn N.gives nodes.old nodes.new }
    ensures ready { OnOk result (IsReady K.disk hub.new left.new) }
    ensures none { OnOk result (LacksReservations left.new) }
    ensures closings { OnOk result (LacksClosings left.new) }
    ensures closed { OnErr result (hub.new.is_open ≡ false) }
    ensures later { K.faults hub.old.keeper ≤ K.faults hub.new.keeper }
    ensures cause { IsErrOf result fault.Keeper →
        Rose (K.faults hub.old.keeper) (K.faults hub.new.keeper) }
{
    for _ in 0..u64::MAX {
        if !free_next(alloc, hub, left, nodes)? {
            return Ok(());
        }
    }
    Err(hub.close())
}

/// Clears the queue.
fn clear_queue<K: Keeper, C: Clock>(hub: &mut KeptHub<K>, clock: &mut C) -> Result<(), KeptFault>
    requires open { IsOpen K.disk hub.old }
    requires none { NoneHeld (past hub.old.hub) }
    ensures went { WentAlong K.disk hub.old hub.new }
    ensures open { OnOk result (IsOpen K.disk hub.new) }
    ensures none { OnOk result (NoneHeld (past hub.new.hub)) }
    ensures stay { OnOk result (AllStay (past hub.old.hub) (past hub.new.hub)) }
    ensures fewer { OnOk result (TicketsFrom (past hub.old.hub) (past hub.new.hub)) }
    ensures closed { OnErr result (hub.new.is_open ≡ false) }
    ensures later { K.faults hub.old.keeper ≤ K.faults hub.new.keeper }
    ensures cause { IsErrOf result fault.Keeper →
        Rose (K.faults hub.old.keeper) (K.faults hub.new.keeper) }
{
    tokens_come_from_replies();
    if hub.room().is_err() {
        return Err(hub.close());
    }
    let _legal = hub.journal();
    hub.clear(clock.now())?;
    Ok(())
}

/// Ends a session that was created for a request of which nobody waits for the outcome.
fn end_created<K: Keeper, N: NodeLink, C: Clock>(
    alloc: Global,
    hub: &mut KeptHub<K>,
    session: &SessionId,
    binding: ReqNo,
    nodes: &mut N,
    clock: &mut C,
) -> Result<(), KeptFault>
    requires open { IsOpen K.disk hub.old }
    requires none { NoneHeld (past hub.old.hub) }
    ensures went { WentAlong K.disk hub.old hub.new }
    ensures asks { QuitsOn N.gives nodes.old nodes.new }
    ensures open { OnOk result (IsOpen K.disk hub.new) }
    ensures none { OnOk result (NoneHeld (past hub.new.hub)) }
    ensures stay { OnOk result (AllStay (past hub.old.hub) (past hub.new.hub)) }
    ensures fewer { OnOk result (TicketsFrom (past hub.old.hub) (past hub.new.hub)) }
    ensures closed { OnErr result (hub.new.is_open ≡ false) }
    ensures later { K.faults hub.old.keeper ≤ K.faults hub.new.keeper }
    ensures cause { IsErrOf result fault.Keeper →
        Rose (K.faults hub.old.keeper) (K.faults hub.new.keeper) }
{
    tokens_come_from_replies();
    if hub.room().is_err() {
        return Err(hub.close());
    }
    let _legal = hub.journal();
    match hub.end(session, binding, clock.now())? {
        Ending::Ended(closing) => finish(alloc, hub, closing, nodes),
        Ending::NoSession => Ok(()),
    }
}

/// Ends the session, if the outcome is one.
fn end_outcome<K: Keeper, N: NodeLink, C: Clock>(
    alloc: Global,
    hub: &mut KeptHub<K>,
    outcome: &Outcome,
    nodes: &mut N,
    clock: &mut C,
) -> Result<(), KeptFault>
    requires open { IsOpen K.disk hub.old }
    requires none { NoneHeld (past hub.old.hub) }
    ensures went { WentAlong K.disk hub.old hub.new }
    ensures asks { QuitsOn N.gives nodes.old nodes.new }
    ensures open { OnOk result (IsOpen K.disk hub.new) }
    ensures none { OnOk result (NoneHeld (past hub.new.hub)) }
    ensures stay { OnOk result (AllStay (past hub.old.hub) (past hub.new.hub)) }
    ensures fewer { OnOk result (TicketsFrom (past hub.old.hub) (past hub.new.hub)) }
    ensures closed { OnErr result (hub.new.is_open ≡ false) }
    ensures later { K.faults hub.old.keeper ≤ K.faults hub.new.keeper }
    ensures cause { IsErrOf result fault.Keeper →
        Rose (K.faults hub.old.keeper) (K.faults hub.new.keeper) }
{
    match outcome {
        Outcome::Created {
            session,
            binding,
            ..
        } => end_created(alloc, hub, session, *binding, nodes, clock),
        _ => Ok(()),
    }
}

/// Takes the outcome of the ticket's request, which is settled once the queue is cleared and nothing is held. Any other answer
/// closes the hub.
fn take_outcome<K: Keeper, N: NodeLink, C: Clock>(
    alloc: Global,
    hub: &mut KeptHub<K>,
    ticket: Ticket,
    nodes: &mut N,
    clock: &mut C,
) -> Result<(), KeptFault>
    requires open { IsOpen K.disk hub.old }
    requires none { NoneHeld (past hub.old.hub) }
    requires may { MayCall (past hub.old.hub) 0 (Call.poll ticket) }
    ensures went { WentAlong K.disk hub.old hub.new }
    ensures asks { QuitsOn N.gives nodes.old nodes.new }
    ensures open { OnOk result (IsOpen K.disk hub.new) }
    ensures none { OnOk result (NoneHeld (past hub.new.hub)) }
    ensures stay { OnOk result (OthersStay ticket.request (past hub.old.hub) (past hub.new.hub)) }
    ensures fewer { OnOk result (TicketsBut ticket.request (past hub.old.hub) (past hub.new.hub)) }
    ensures closed { OnErr result (hub.new.is_open ≡ false) }
    ensures later { K.faults hub.old.keeper ≤ K.faults hub.new.keeper }
    ensures cause { IsErrOf result fault.Keeper →
        Rose (K.faults hub.old.keeper) (K.faults hub.new.keeper) }
{
    tokens_come_from_replies();
    let _legal = hub.journal();
    match hub.poll(ticket, clock.now())? {
        Polled::Settled(outcome) => end_outcome(alloc, hub, &outcome, nodes, clock),
        Polled::Yours(_, reservation) => {
            drop(reservation);
            Err(hub.close())
        }
        Polled::NotYet(_) => Err(hub.close()),
        Polled::Memory(_) => Err(hub.close()),
    }
}

/// Takes one outcome. False: there is none.
fn take_next<K: Keeper, N: NodeLink, C: Clock>(
    alloc: Global,
    hub: &mut KeptHub<K>,
    left: &mut Left,
    nodes: &mut N,
    clock: &mut C,
) -> Result<bool, KeptFault>
    requires { IsIdle K.disk hub.old left.old }
    ensures went { WentAlong K.disk hub.old hub.new }
    ensures asks { QuitsOn N.gives nodes.old nodes.new }
    ensures step { Took K.disk hub.new left.new result }
    ensures later { K.faults hub.old.keeper ≤ K.faults hub.new.keeper }
    ensures cause { IsErrOf result fault.Keeper →
        Rose (K.faults hub.old.keeper) (K.faults hub.new.keeper) }
{
    let Some(ticket) = left.pop_ticket() else {
        return Ok(false);
    };
    take_outcome(alloc, hub, ticket, nodes, clock)?;
    Ok(true)
}

fn take_all<K: Keeper, N: NodeLink, C: Clock>(
    alloc: Global,
    hub: &mut KeptHub<K>,
    left: &mut Left,
    nodes: &mut N,
    clock: &mut C,
) -> Result<(), KeptFault>
    requires { IsIdle K.disk hub.old left.old }
    ensures went { WentAlong K.disk hub.old hub.new }
    ensures asks { QuitsOn N.gives nodes.old nodes.new }
    ensures open { OnOk result (IsOpen K.disk hub.new) }
    ensures none { OnOk result (NoneHeld (past hub.new.hub)) }
    ensures tickets { OnOk result (NoTicket (past hub.new.hub)) }
    ensures closed { OnErr result (hub.new.is_open ≡ false) }
    ensures later { K.faults hub.old.keeper ≤ K.faults hub.new.keeper }
    ensures cause { IsErrOf result fault.Keeper →
        Rose (K.faults hub.old.keeper) (K.faults hub.new.keeper) }
{
    for _ in 0..u64::MAX {
        if !take_next(alloc, hub, left, nodes, clock)? {
            return Ok(());
        }
    }
    Err(hub.close())
}

/// Spends the open tokens of a hub that was made again: each reservation by slot order as one whose node can't be reached;
/// each closing by slot order is freed, after its node was asked to end the session where that is called for; the queue is
/// cleared; and of each ticket by number the outcome is taken, where a session that was created is ended. A fault closes
/// the hub.
pub fn settle<K: Keeper, N: NodeLink, C: Clock>(
    alloc: Global,
    hub: &mut KeptHub<K>,
    left: Left,
    nodes: &mut N,
    clock: &mut C,
) -> Result<(), KeptFault>
    requires open { IsOpen K.disk hub.old }
    requires left { HoldsAll (past hub.old.hub) left }
    ensures went { WentAlong K.disk hub.old hub.new }
    ensures asks { QuitsOn N.gives nodes.old nodes.new }
    ensures open { OnOk result (IsOpen K.disk hub.new) }
    ensures none { OnOk result (NoneHeld (past hub.new.hub)) }
    ensures tickets { OnOk result (NoTicket (past hub.new.hub)) }
    ensures closed { OnErr result (hub.new.is_open ≡ false) }
    ensures later { K.faults hub.old.keeper ≤ K.faults hub.new.keeper }
    ensures cause { IsErrOf result fault.Keeper →
        Rose (K.faults hub.old.keeper) (K.faults hub.new.keeper) }
{
    let mut left = left;
    fail_all(alloc, hub, &mut left, clock)?;
    free_all(alloc, hub, &mut left, nodes)?;
    clear_queue(hub, clock)?;
    take_all(alloc, hub, &mut left, nodes, clock)
}
