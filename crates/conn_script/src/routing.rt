//! What a whole request asks for, and the first turn of its script.
ghost use Rattle.std.specs.Prelude.{◌≡◌, ℕ, List, false, []};
ghost use Rattle.grid_types.specs.Calls.{Call};
ghost use Rattle.http_frames.specs.Frames.{Request};
ghost use Rattle.conn_script.specs.Asking.{IsOf};
ghost use Rattle.conn_script.specs.Moving.{IsReady};
ghost use Rattle.conn_script.specs.Wanted.{call_of};
ghost use Rattle.conn_script.specs.declared.turn.Turn.TheVariants as turn;
ghost use Rattle.conn_script.specs.declared.turn.Run.TheVariants as run;
ghost use Rattle.conn_script.specs.declared.calling.Calling.TheVariants as calling;
ghost use Rattle.conn_script.specs.OneCall.{NamesNode};
ghost use Rattle.conn_script.specs.Routing.{FirstTurn, node_call, IsNodeAsked, AsksNode, AsksToBeat, IsBeatRefused, AsksToRegister, AsksToDelete, AsksToRelay, AsksToCreate, IsRegistrationRefused, AreCapabilitiesRefused};

use crate::calling::{Asked, Calling};
use crate::creating::Creating;
use crate::deleting::Deleting;
use crate::relaying::Relaying;
use crate::request::Whole;
use crate::responses::{
    beat_refusal, caps_refusal, no_such_node, no_such_session, reg_refusal, unknown_command,
    unknown_method,
};
use crate::turn::{Run, Turn, respond};
use crate::wants::HubCall;
use caps_merge::{
    CapsFault, RegFault, beat_name, process, registration, registrations_are_well_sized,
};
use grid_types::{Bytes, NodeNo, SessionId, Text, node_number};
use router_core::{RouteFault, Routed, Router};
use std::alloc::Global;

/// The first turn of the request under way, whose route the table of paths tells.
pub fn first_turn(alloc: Global, router: &Router, whole: Whole<'_>, close: bool) -> Turn
    ensures turns { (f : Request) → IsOf whole.entry f → FirstTurn f result close }
    ensures ready { IsReady result [] }
{
    match router.route(whole.method, whole.target) {
        Ok(Routed::Status) => ask(HubCall::View, Asked::Status),
        Ok(Routed::Queue) => ask(HubCall::View, Asked::Queue),
        Ok(Routed::ClearQueue) => ask(HubCall::Clear, Asked::Clear),
        Ok(Routed::Remove(id)) => ask_node(alloc, id, Asked::Remove, close),
        Ok(Routed::Drain(id)) => ask_node(alloc, id, Asked::Drain, close),
        Ok(Routed::Beat(id)) => beat(alloc, id, whole.body, close),
        Ok(Routed::Register) => register(alloc, whole.body, close),
        Ok(Routed::DeleteSession(id)) => delete(alloc, id, close),
        Ok(Routed::Relay { id, target }) => relay(alloc, id, target, close),
        Ok(Routed::NewSession) => create(alloc, whole.body, close),
        Err(RouteFault::UnknownCommand) => respond(unknown_command(alloc, close)),
        Err(RouteFault::UnknownMethod) => respond(unknown_method(alloc, close)),
        Err(RouteFault::Memory) => Turn::Lacks,
    }
}

fn ask(call: HubCall, asked: Asked) -> Turn
    ensures { result ≡ turn.Go (run.Calling (calling.Ask call asked)) false }
{
    Turn::Go(Run::Calling(Calling::Ask(call, asked)), false)
}

fn call_for(node: NodeNo, asked: Asked) -> HubCall
    ensures { call_of result ≡ node_call asked node }
{
    match asked {
        Asked::Remove => HubCall::Remove(node),
        _ => HubCall::Drain(node),
    }
}

fn ask_node(alloc: Global, id: &[u8], asked: Asked, close: bool) -> Turn
    requires { IsNodeAsked asked }
    ensures turns { AsksNode asked id.now result close }
    ensures ready { IsReady result [] }
{
    match node_number(id) {
        Some(node) => ask(call_for(node, asked), asked),
        None => respond(no_such_node(alloc, close)),
    }
}

fn beat(alloc: Global, id: &[u8], body: &[u8], close: bool) -> Turn
    ensures turns { AsksToBeat id.now body.now result close }
    ensures ready { IsReady result [] }
{
    match node_number(id) {
        Some(node) => beat_of(alloc, node, body, close),
        None => respond(no_such_node(alloc, close)),
    }
}

fn beat_of(alloc: Global, node: NodeNo, body: &[u8], close: bool) -> Turn
    ensures turns { (id : List ℕ) → NamesNode id node → AsksToBeat id body.now result close }
    ensures ready { IsReady result [] }
{
    match beat_name(alloc, body) {
        Ok(name) => ask(beat_call(node, name), Asked::Beat),
        Err(fault) => beat_refused(alloc, &fault, close),
    }
}

fn beat_call(node: NodeNo, name: Option<Text>) -> HubCall
    ensures { call_of result ≡ Call.beat node name }
{
    match name {
        Some(name) => HubCall::BeatAs(node, name),
        None => HubCall::Beat(node),
    }
}

fn beat_refused(alloc: Global, fault: &RegFault, close: bool) -> Turn
    ensures turns { IsBeatRefused fault.now result close }
    ensures ready { IsReady result [] }
{
    match fault {
        RegFault::Memory => Turn::Lacks,
        _ => respond(beat_refusal(alloc, fault, close)),
    }
}

fn register(alloc: Global, body: &[u8], close: bool) -> Turn
    ensures turns { AsksToRegister body.now result close }
    ensures ready { IsReady result [] }
{
    registrations_are_well_sized();
    match registration(alloc, body) {
        Ok(node) => ask(HubCall::Register(node), Asked::Register),
        Err(fault) => registration_refused(alloc, &fault, close),
    }
}

fn registration_refused(alloc: Global, fault: &RegFault, close: bool) -> Turn
    ensures turns { IsRegistrationRefused fault.now result close }
    ensures ready { IsReady result [] }
{
    match fault {
        RegFault::Memory => Turn::Lacks,
        _ => respond(reg_refusal(alloc, fault, close)),
    }
}

fn create(alloc: Global, body: &[u8], close: bool) -> Turn
    ensures turns { AsksToCreate body.now result close }
    ensures ready { IsReady result [] }
{
    match process(alloc, body) {
        Ok(choices) => Turn::Go(Run::Creating(Creating::Enqueue(choices)), false),
        Err(fault) => capabilities_refused(alloc, &fault, close),
    }
}

fn capabilities_refused(alloc: Global, fault: &CapsFault, close: bool) -> Turn
    ensures turns { AreCapabilitiesRefused fault.now result close }
    ensures ready { IsReady result [] }
{
    match fault {
        CapsFault::Memory => Turn::Lacks,
        _ => respond(caps_refusal(alloc, fault, close)),
    }
}

fn delete(alloc: Global, id: &[u8], close: bool) -> Turn
    ensures turns { AsksToDelete id.now result close }
    ensures ready { IsReady result [] }
{
    match SessionId::from_bytes(id) {
        Some(session) => Turn::Go(Run::Deleting(Deleting::Lookup(session)), false),
        None => respond(no_such_session(alloc, close)),
    }
}

fn relay(alloc: Global, id: &[u8], target: &[u8], close: bool) -> Turn
    ensures turns { AsksToRelay id.now target.now result close }
    ensures ready { IsReady result [] }
{
    let Some(session) = SessionId::from_bytes(id) else {
        return respond(no_such_session(alloc, close));
    };
    match Bytes::of(alloc, target) {
        Ok(target) => Turn::Go(Run::Relaying(Relaying::Lookup(session, target)), false),
        Err(_) => Turn::Lacks,
    }
}
