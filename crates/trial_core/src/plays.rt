//! Each play is a list of calls with their moments and the answers that were worked out by hand. Chrome is the browser 0,
//! firefox is 1, and 2 takes any. The nodes of the names 0 and 3 are at `x:1`, the others at `x:2`.
use grid_types::{HubConfig, Moment, SlotId};
use std::alloc::Global;
use trial_desk::*;

/// A moment, a call and its answer.
type Step = (u64, Call, &'static str);

// What a call is answered, in words.
fn answered(alloc: Global, desk: &mut Desk, call: &Call, at: u64) -> Result<String, Fault> {
    let answer = make(desk, alloc, call, Moment(at))?;
    let text = told(alloc, &answer);
    // Let go by a call: the check of a value that ends by itself writes out all its fields.
    drop(answer);
    text
}

// Borrows the desk, so that no early return drops one.
fn plays_on(alloc: Global, desk: &mut Desk, steps: &[Step]) -> Result<bool, Fault> {
    for (at, call, wanted) in steps {
        let text = answered(alloc, desk, call, *at)?;
        let so = text.as_str() == *wanted;
        drop(text);
        if !so {
            return Ok(false);
        }
    }
    Ok(true)
}

/// Whether a hub goes so. A fault is out of memory, or that a token is missing.
fn plays(alloc: Global, config: HubConfig, steps: &[Step]) -> Result<bool, Fault> {
    let mut desk = Desk::new(alloc, config)?;
    let so = plays_on(alloc, &mut desk, steps);
    drop(desk);
    so
}

// The calls in few words: a table is a constant, and no function may be called in it.

/// A node with one slot: its name and its browser.
macro_rules! node {
    ($name:expr, $browser:expr) => {
        Call::Register {
            name: $name,
            browser: $browser,
            pair: false,
            drain_after: 0,
        }
    };
}

/// A node of two slots for Chrome, with the name 0, that drains after so many sessions, or after none for 0.
macro_rules! pair {
    ($drain_after:expr) => {
        Call::Register {
            name: 0,
            browser: 0,
            pair: true,
            drain_after: $drain_after,
        }
    };
}

/// A request with one choice, of this browser.
macro_rules! wish {
    ($browser:expr) => {
        Call::Enqueue {
            first: $browser,
            second: $browser,
            wait_ms: 0,
        }
    };
}

/// A request for Chrome that asks to wait for so many milliseconds.
macro_rules! wish_for {
    ($wait_ms:expr) => {
        Call::Enqueue {
            first: 0,
            second: 0,
            wait_ms: $wait_ms,
        }
    };
}

/// A request, a session and its browser.
macro_rules! bind {
    ($request:expr, $session:expr, $browser:expr) => {
        Call::Bind {
            request: $request,
            session: $session,
            browser: $browser,
        }
    };
}

/// A session and its binding.
macro_rules! end {
    ($session:expr, $binding:expr) => {
        Call::End {
            session: $session,
            binding: $binding,
        }
    };
}

/// The first slot of a node.
macro_rules! freed {
    ($node:expr) => {
        Call::Freed(SlotId {
            node: $node,
            index: 0,
        })
    };
}

const A_REQUEST_PASSES_ONE_THAT_FINDS_NO_SLOT: &[Step] = &[
    (0, node!(0, 1), "registered 1"),
    (0, node!(1, 0), "registered 2"),
    (0, wish!(1), "queued 1"),
    (0, Call::Poll(1), "yours 1 on 1.0"),
    (0, bind!(1, 0, 1), "bound 1"),
    (0, wish!(1), "queued 2"),
    (0, wish!(0), "queued 3"),
    (0, Call::Dispatch, "assigned 3 on 2.0"),
    (0, Call::Dispatch, "nothing"),
    (0, end!(0, 1), "ended 1.0 at x:1 to quit"),
    (0, freed!(1), "freed"),
    (0, Call::Dispatch, "assigned 2 on 1.0"),
    (0, Call::Poll(1), "created 1"),
];

/// A request waits 300,000 ms.
const A_SESSION_COMES_TOO_LATE: &[Step] = &[
    (0, wish!(0), "queued 1"),
    (250_000, node!(0, 0), "registered 1"),
    (299_990, Call::Dispatch, "assigned 1 on 1.0"),
    (300_000, Call::Poll(1), "timed out 300000"),
    (300_001, bind!(1, 0, 0), "late 1.0 at x:1 to quit"),
    (300_001, freed!(1), "freed"),
    (300_002, wish!(0), "queued 2"),
    (300_002, Call::Dispatch, "assigned 2 on 1.0"),
];

/// The second request waits again, barred from the second node, which the third gets.
const A_SECOND_SESSION_OF_ONE_ID_IS_NOT_KEPT: &[Step] = &[
    (0, node!(0, 0), "registered 1"),
    (0, node!(1, 0), "registered 2"),
    (0, wish!(0), "queued 1"),
    (0, wish!(0), "queued 2"),
    (0, Call::Poll(1), "yours 1 on 1.0"),
    (0, bind!(1, 0, 0), "bound 1"),
    (0, Call::Poll(2), "yours 2 on 2.0"),
    (0, bind!(2, 0, 0), "duplicate 2.0 at x:2 to quit"),
    (0, Call::Lookup(0), "1 on 1.0 at x:1"),
    (0, freed!(2), "freed"),
    (0, Call::Poll(2), "not yet"),
    (0, wish!(0), "queued 3"),
    (0, Call::Dispatch, "assigned 3 on 2.0"),
];

/// The cause 1 is that the node can't be reached. The first node has no room for a second session, and the second request
/// is barred from the other, which the third gets.
const A_FAILED_START_BARS_ITS_NODE: &[Step] = &[
    (10, node!(0, 0), "registered 1"),
    (10, node!(1, 0), "registered 2"),
    (20, wish!(0), "queued 1"),
    (20, wish!(0), "queued 2"),
    (20, wish!(0), "queued 3"),
    (30, Call::Dispatch, "assigned 1 on 1.0"),
    (30, Call::Dispatch, "assigned 2 on 2.0"),
    (40, bind!(1, 0, 0), "bound 1"),
    (
        50,
        Call::Fail {
            request: 2,
            cause: 1,
        },
        "again",
    ),
    (60, Call::View, "ready true 1 Up 2 Up waiting 2"),
    (60, Call::Dispatch, "assigned 3 on 2.0"),
    (60, Call::Dispatch, "nothing"),
    (120_009, Call::Sweep, "swept 0 0 0 0"),
    (120_010, Call::Sweep, "swept 0 2 0 0"),
    (240_010, Call::Sweep, "swept 2 0 0 0"),
    (300_019, Call::Poll(2), "not yet"),
    (300_020, Call::Sweep, "swept 0 0 2 0"),
    (300_020, Call::Poll(2), "timed out 300020"),
];

/// Here both nodes are at one address.
const A_SESSION_THAT_RUNS_THERE_IS_NOT_ENDED: &[Step] = &[
    (0, node!(1, 0), "registered 1"),
    (0, node!(2, 0), "registered 2"),
    (0, wish!(0), "queued 1"),
    (0, wish!(0), "queued 2"),
    (0, Call::Poll(1), "yours 1 on 1.0"),
    (0, bind!(1, 0, 0), "bound 1"),
    (0, Call::Poll(2), "yours 2 on 2.0"),
    (0, bind!(2, 0, 0), "duplicate 2.0 at x:2 not to quit"),
];

const A_NUMBER_THAT_WAS_NOT_GIVEN_IS_NO_NODE: &[Step] = &[
    (0, node!(0, 0), "registered 1"),
    (0, Call::Beat(9), "no node"),
    (0, Call::Drain(9), "no node"),
    (0, Call::Remove(9), "no node"),
    (0, Call::Beat(1), "beaten"),
    (0, Call::Drain(1), "draining"),
    (0, Call::Remove(1), "removed"),
];

/// A node is suspect after 120,000 ms without a beat, and down after 240,000 ms; its sessions run on until then. A drain of a
/// suspect node is shown from its next beat on.
const A_SILENT_NODE_IS_SUSPECT_BEFORE_IT_LAPSES: &[Step] = &[
    (0, pair!(0), "registered 1"),
    (0, wish!(0), "queued 1"),
    (0, Call::Poll(1), "yours 1 on 1.0"),
    (0, bind!(1, 0, 0), "bound 1"),
    (119_999, Call::Sweep, "swept 0 0 0 0"),
    (120_000, Call::Sweep, "swept 0 1 0 0"),
    (120_000, Call::Lookup(0), "1 on 1.0 at x:1"),
    (120_000, wish!(0), "queued 2"),
    (120_000, Call::Dispatch, "nothing"),
    (130_000, Call::Beat(1), "beaten"),
    (130_000, Call::Dispatch, "assigned 2 on 1.1"),
    (250_000, Call::Sweep, "swept 0 1 0 0"),
    (370_000, Call::Sweep, "swept 1 0 0 0"),
    (370_000, Call::Lookup(0), "no session"),
    (370_000, bind!(2, 1, 0), "node gone 1.1 at x:1 to quit"),
    (370_000, pair!(0), "registered 2"),
    (490_000, Call::Sweep, "swept 0 1 0 0"),
    (490_000, Call::Drain(2), "draining"),
    (
        490_000,
        Call::View,
        "ready false 1 Down 2 Suspect waiting 0",
    ),
    (490_000, Call::Beat(2), "beaten"),
    (
        490_000,
        Call::View,
        "ready false 1 Down 2 Draining waiting 0",
    ),
];

/// A time of less than 1,000 ms is none that a request may ask for.
const A_NODE_AND_REQUESTS_HAVE_LIMITS_OF_THEIR_OWN: &[Step] = &[
    (0, pair!(1), "registered 1"),
    (0, wish!(0), "queued 1"),
    (0, wish!(0), "queued 2"),
    (0, Call::Dispatch, "assigned 1 on 1.0"),
    (0, Call::Dispatch, "nothing"),
    (0, bind!(1, 0, 0), "bound 1"),
    (0, Call::View, "ready false 1 Draining waiting 1"),
    (0, end!(0, 1), "ended 1.0 at x:1 to quit"),
    (0, freed!(1), "freed"),
    (0, Call::Sweep, "swept 0 0 0 1"),
    (10, wish_for!(2_000), "queued 3"),
    (10, wish_for!(999), "queued 4"),
    (2_009, Call::Poll(3), "not yet"),
    (2_010, Call::Poll(3), "timed out 2010"),
    (300_009, Call::Poll(4), "not yet"),
    (300_010, Call::Poll(4), "timed out 300010"),
];

/// A session is idle after 300,000 ms without a touch.
const A_TOUCH_KEEPS_A_SESSION: &[Step] = &[
    (0, node!(0, 0), "registered 1"),
    (0, wish!(0), "queued 1"),
    (0, Call::Dispatch, "assigned 1 on 1.0"),
    (0, bind!(1, 0, 0), "bound 1"),
    (
        100_000,
        Call::Touch {
            session: 0,
            binding: 1,
        },
        "touched",
    ),
    (399_999, Call::Expire, "nothing"),
    (400_000, Call::Expire, "expired 1.0 at x:1 to quit"),
    (400_000, Call::Lookup(0), "no session"),
];

const NODES_TAKE_TURNS: &[Step] = &[
    (0, node!(0, 0), "registered 1"),
    (0, node!(1, 0), "registered 2"),
    (0, wish!(0), "queued 1"),
    (0, Call::Dispatch, "assigned 1 on 1.0"),
    (0, bind!(1, 0, 0), "bound 1"),
    (0, wish!(0), "queued 2"),
    (0, Call::Dispatch, "assigned 2 on 2.0"),
    (0, bind!(2, 1, 0), "bound 2"),
    (0, end!(0, 1), "ended 1.0 at x:1 to quit"),
    (0, freed!(1), "freed"),
    (0, end!(1, 2), "ended 2.0 at x:2 to quit"),
    (0, freed!(2), "freed"),
    (0, wish!(0), "queued 3"),
    (0, Call::Dispatch, "assigned 3 on 1.0"),
];

const NUMBERS_ARE_SPENT: &[Step] = &[
    (0, wish!(0), "numbers spent"),
    (0, node!(0, 0), "numbers spent"),
];

const A_NAME_IS_TAKEN_WHILE_ITS_NODE_IS_REGISTERED: &[Step] = &[
    (0, node!(7, 0), "registered 1"),
    (0, node!(7, 1), "name taken 1"),
    (0, Call::Remove(1), "removed"),
    (0, node!(7, 1), "registered 2"),
];

/// The choice is written as `{"browserName":"chrome"}`, 24 bytes.
const A_HELD_REQUEST_KEEPS_ITS_PLACE_IN_THE_QUEUE: &[Step] = &[
    (0, node!(0, 0), "registered 1"),
    (0, wish!(0), "queued 1"),
    (0, wish!(0), "queue full 1 24"),
    (0, Call::Dispatch, "assigned 1 on 1.0"),
    (0, wish!(0), "queue full 1 24"),
    (0, bind!(1, 0, 0), "bound 1"),
    (0, wish!(0), "queued 2"),
];

/// The cause 3 is a bad reply.
const A_START_IS_THE_LAST_WHERE_THE_NODE_DRAINS: &[Step] = &[
    (0, node!(0, 0), "registered 1"),
    (0, wish!(0), "queued 1"),
    (0, Call::View, "ready true 1 Up waiting 1"),
    (0, Call::Dispatch, "assigned 1 on 1.0"),
    (0, Call::Drain(1), "draining"),
    (0, Call::View, "ready false 1 Draining waiting 0"),
    (
        0,
        Call::Fail {
            request: 1,
            cause: 3,
        },
        "refused",
    ),
    (0, Call::Poll(1), "start failed BadReply"),
];

/// The first request is given up while it waits, the second while a start for it is under way and again once that came.
const A_REQUEST_IS_GIVEN_UP: &[Step] = &[
    (0, node!(0, 0), "registered 1"),
    (0, wish!(0), "queued 1"),
    (0, wish!(0), "queued 2"),
    (0, wish!(0), "queued 3"),
    (1, Call::Withdraw(1), "withdrawn"),
    (1, Call::Dispatch, "assigned 2 on 1.0"),
    (2, Call::Withdraw(2), "not yet"),
    (3, bind!(2, 0, 0), "bound 2"),
    (4, Call::Withdraw(2), "created 2"),
    (5, Call::Withdraw(3), "withdrawn"),
    (6, end!(0, 2), "ended 1.0 at x:1 to quit"),
    (6, freed!(1), "freed"),
    (6, Call::Dispatch, "nothing"),
];

const PLAYS: &[&[Step]] = &[
    A_REQUEST_PASSES_ONE_THAT_FINDS_NO_SLOT,
    A_SESSION_COMES_TOO_LATE,
    A_SECOND_SESSION_OF_ONE_ID_IS_NOT_KEPT,
    A_FAILED_START_BARS_ITS_NODE,
    A_SESSION_THAT_RUNS_THERE_IS_NOT_ENDED,
    A_NUMBER_THAT_WAS_NOT_GIVEN_IS_NO_NODE,
    A_SILENT_NODE_IS_SUSPECT_BEFORE_IT_LAPSES,
    A_NODE_AND_REQUESTS_HAVE_LIMITS_OF_THEIR_OWN,
    A_TOUCH_KEEPS_A_SESSION,
    NODES_TAKE_TURNS,
    A_NAME_IS_TAKEN_WHILE_ITS_NODE_IS_REGISTERED,
    A_START_IS_THE_LAST_WHERE_THE_NODE_DRAINS,
    A_REQUEST_IS_GIVEN_UP,
];

fn all_play(alloc: Global, all: &[&[Step]]) -> Result<bool, Fault> {
    for steps in all {
        if !plays(alloc, HubConfig::default(), steps)? {
            return Ok(false);
        }
    }
    Ok(true)
}

/// The last number of a node and of a request was given.
fn are_spent(alloc: Global) -> Result<bool, Fault> {
    let config = HubConfig {
        first_node: u32::MAX,
        first_request: u64::MAX,
        ..HubConfig::default()
    };
    plays(alloc, config, NUMBERS_ARE_SPENT)
}

/// There is room for one request.
fn keeps_its_place(alloc: Global) -> Result<bool, Fault> {
    let config = HubConfig {
        queue_requests: 1,
        ..HubConfig::default()
    };
    plays(alloc, config, A_HELD_REQUEST_KEEPS_ITS_PLACE_IN_THE_QUEUE)
}

#[test]
fn hubs_go_as_worked_out(rt: HostRuntime) -> Result<(), Fault> {
    let so = all_play(rt.alloc(), PLAYS)?;
    assert!(rt; so);
    let so = are_spent(rt.alloc())?;
    assert!(rt; so);
    let so = keeps_its_place(rt.alloc())?;
    assert!(rt; so);
    Ok(())
}

/// Whether the call is answered so at the moment 0.
fn says(alloc: Global, desk: &mut Desk, call: &Call, wanted: &str) -> Result<bool, Fault> {
    let text = answered(alloc, desk, call, 0)?;
    let so = text.as_str() == wanted;
    drop(text);
    Ok(so)
}

fn are_queued(alloc: Global, desk: &mut Desk, count: u64) -> Result<bool, Fault> {
    for before in 0..count {
        let answer = make(desk, alloc, &wish!(2), Moment(0))?;
        let so = matches!(answer, Answer::Queued { request, .. } if request == before + 1);
        drop(answer);
        if !so {
            return Ok(false);
        }
    }
    Ok(true)
}

fn are_cleared(alloc: Global, desk: &mut Desk, count: u64) -> Result<bool, Fault> {
    for before in 0..count {
        if !says(alloc, desk, &Call::Poll(before + 1), "cleared")? {
            return Ok(false);
        }
    }
    Ok(true)
}

/// One empty choice takes 2 bytes.
fn fills_and_clears(alloc: Global, desk: &mut Desk) -> Result<bool, Fault> {
    Ok(
        are_queued(alloc, desk, 10_000)?
            && says(alloc, desk, &wish!(2), "queue full 10000 20000")?
            && says(alloc, desk, &Call::Clear, "cleared 10000")?
            && are_cleared(alloc, desk, 10_000)?,
    )
}

fn are_registered(alloc: Global, desk: &mut Desk, count: u64) -> Result<bool, Fault> {
    for name in 0..count {
        let answer = make(desk, alloc, &node!(name, 0), Moment(0))?;
        let so = matches!(answer, Answer::Registered(number) if u64::from(number) == name + 1);
        drop(answer);
        if !so {
            return Ok(false);
        }
    }
    Ok(true)
}

fn lists(alloc: Global, desk: &mut Desk) -> Result<bool, Fault> {
    Ok(
        are_registered(alloc, desk, 1_024)?
            && says(alloc, desk, &node!(1_024, 0), "nodes full 1024")?,
    )
}

fn all_listed(alloc: Global, desk: &mut Desk) -> Result<bool, Fault> {
    Ok(fills_and_clears(alloc, desk)? && lists(alloc, desk)?)
}

#[test]
fn so_many_requests_and_nodes_are_listed(rt: HostRuntime) -> Result<(), Fault> {
    let mut desk = Desk::new(rt.alloc(), HubConfig::default())?;
    let so = all_listed(rt.alloc(), &mut desk);
    drop(desk);
    let so = so?;
    assert!(rt; so);
    Ok(())
}
