//! The calls as plain numbers.
ghost use Rattle.std.specs.Prelude.{◌≡◌, ◌≤◌, true, IfOk};
ghost use Rattle.grid_types.specs.Permitted.{is_drain_count, is_well_sized, is_start_failure};

use crate::answers::{Answer, Fault};
use crate::desk::Desk;
use crate::makings::{address, ask_to_wait, browser, node, only};
use grid_types::{
    Caps, Choices, FailWhy, MOST_DRAIN_AFTER, Moment, NodeNo, Registration, ReqNo, SessionId,
    SlotId, Text, Words,
};
use std::alloc::Global;

/// A browser's place in this list is its number; with the last, any will do.
const BROWSERS: [&str; 3] = ["chrome", "firefox", ""];

/// A call, with what it is handed as numbers.
#[derive(Clone, Copy, Debug)]
pub enum Call {
    /// A node whose name and address follow from its number, with one slot or a pair. It drains after so many sessions, or
    /// after none for 0.
    Register {
        name: u64,
        browser: u64,
        pair: bool,
        drain_after: u32,
    },
    Beat(NodeNo),
    Drain(NodeNo),
    Remove(NodeNo),
    /// The first choice asks to wait for so many milliseconds, or for no time of its own for 0.
    Enqueue {
        first: u64,
        second: u64,
        wait_ms: u64,
    },
    Poll(ReqNo),
    Withdraw(ReqNo),
    Dispatch,
    Bind {
        request: ReqNo,
        session: u64,
        browser: u64,
    },
    Fail {
        request: ReqNo,
        cause: u64,
    },
    Lookup(u64),
    Touch {
        session: u64,
        binding: ReqNo,
    },
    End {
        session: u64,
        binding: ReqNo,
    },
    Freed(SlotId),
    Sweep,
    Expire,
    Clear,
    View,
}

/// The capabilities of the browser with this number; of the last, none.
pub fn caps_of(alloc: Global, number: u64) -> Result<Caps, Fault> {
    match number % 3 {
        2 => Ok(Caps::new(alloc)),
        number => browser(alloc, BROWSERS[number as usize]),
    }
}

fn slot_count(pair: bool) -> u16
    ensures least { 1 ≤ result }
    ensures most { result ≤ 64 }
{
    if pair { 2 } else { 1 }
}

fn drain_count(number: u32) -> Option<u32>
    ensures { is_drain_count result ≡ true }
{
    match number {
        0 => None,
        number => Some(number.min(MOST_DRAIN_AFTER)),
    }
}

/// A node with one slot or two, that drains after so many sessions, or after none for 0.
pub fn registration_of(
    alloc: Global,
    name: u64,
    browser: u64,
    pair: bool,
    drain_after: u32,
) -> Result<Registration, Fault>
    ensures { IfOk result (λ r. is_well_sized r ≡ true) }
{
    let Ok(text) = format!(in alloc; "n{name}") else {
        return Err(Fault::Memory);
    };
    let place = address(if name % 3 == 0 { "x:1" } else { "x:2" })?;
    let offered = caps_of(alloc, browser % 2)?;
    node(
        alloc,
        Text::from_string(text),
        place,
        offered,
        slot_count(pair),
        drain_count(drain_after),
    )
}

/// Two choices, or one where both are the same. The first asks to wait for so many milliseconds, or for no time of its own
/// for 0.
pub fn choices_of(alloc: Global, first: u64, second: u64, wait_ms: u64) -> Result<Choices, Fault> {
    let mut caps = caps_of(alloc, first)?;
    if wait_ms > 0 {
        ask_to_wait(alloc, &mut caps, wait_ms)?;
    }
    let mut choices = only(alloc, caps)?;
    if first != second {
        let other = caps_of(alloc, second)?;
        if choices.items().len() < 64 && choices.push(other).is_err() {
            return Err(Fault::Memory);
        }
    }
    Ok(choices)
}

/// The session id with this number.
fn session_of(number: u64) -> Result<SessionId, Fault> {
    let digit = b'0' + (number % 10) as u8;
    SessionId::from_bytes(&[b's', digit]).ok_or(Fault::NotTaken)
}

/// Why a start failed at the node or on the way to it.
fn cause_of(number: u64) -> FailWhy
    ensures { is_start_failure result ≡ true }
{
    match number % 5 {
        0 => FailWhy::NodeRefused(Words::cut("refused")),
        1 => FailWhy::Unreachable,
        2 => FailWhy::NotHttp,
        3 => FailWhy::BadReply,
        _ => FailWhy::NoMemory,
    }
}

/// Makes a call that concerns nodes, or all that is listed or waits.
fn call_of_nodes(desk: &mut Desk, alloc: Global, call: &Call, at: Moment) -> Result<Answer, Fault> {
    match *call {
        Call::Register {
            name,
            browser,
            pair,
            drain_after,
        } => desk.register(
            registration_of(alloc, name, browser, pair, drain_after)?,
            at,
        ),
        Call::Beat(node) => desk.beat(node, at),
        Call::Drain(node) => desk.drain(node, at),
        Call::Remove(node) => desk.remove(node, at),
        Call::Sweep => desk.sweep(at),
        Call::Clear => desk.clear(at),
        _ => desk.view(),
    }
}

/// Makes a call that concerns a session.
fn call_of_sessions(desk: &mut Desk, call: &Call, at: Moment) -> Result<Answer, Fault> {
    match *call {
        Call::Lookup(session) => Ok(desk.lookup(&session_of(session)?)),
        Call::Touch { session, binding } => desk.touch(&session_of(session)?, binding, at),
        Call::End { session, binding } => desk.end(&session_of(session)?, binding, at),
        Call::Freed(slot) => desk.freed(slot),
        _ => desk.expire(at),
    }
}

/// Makes a call.
pub fn make(desk: &mut Desk, alloc: Global, call: &Call, at: Moment) -> Result<Answer, Fault> {
    match *call {
        Call::Enqueue {
            first,
            second,
            wait_ms,
        } => desk.enqueue(choices_of(alloc, first, second, wait_ms)?, at),
        Call::Poll(request) => desk.poll(request, at),
        Call::Withdraw(request) => desk.withdraw(request, at),
        Call::Dispatch => desk.dispatch(at),
        Call::Bind {
            request,
            session,
            browser,
        } => desk.bind(request, session_of(session)?, caps_of(alloc, browser)?, at),
        Call::Fail { request, cause } => desk.fail(request, cause_of(cause), at),
        Call::Lookup(_) | Call::Touch { .. } | Call::End { .. } | Call::Freed(_) | Call::Expire =>
            call_of_sessions(desk, call, at),
        _ => call_of_nodes(desk, alloc, call, at),
    }
}
