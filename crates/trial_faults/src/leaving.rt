//! Clients that leave while their requests for sessions wait.
use crate::callers::{Caller, Story};
use crate::table::Scene;
use crate::tables::{NULL, OK, REGISTERS, Told};
use hub_serving::{ConnFault, End, Served};

/// A request for a session.
pub(crate) const NEW_SESSION: &[u8] =
    b"POST /session HTTP/1.1\r\nHost: h\r\nContent-Length: 19\r\n\r\n{\"capabilities\":{}}";

/// The session of the first client is ended.
pub(crate) const DELETE_A: &[u8] = b"DELETE /session/a HTTP/1.1\r\nHost: h\r\n\r\n";

pub(crate) const CREATES_A: (u16, &str) = (
    200,
    "{\"value\":{\"sessionId\":\"a\",\"capabilities\":{}}}",
);

pub(crate) const CREATES_B: (u16, &str) = (
    200,
    "{\"value\":{\"sessionId\":\"b\",\"capabilities\":{}}}",
);

pub(crate) const ENDS: (u16, &str) = (200, "{\"value\":null}");

pub(crate) const CREATED_A: Told = Told::Hub(
    OK,
    "{\"value\":{\"sessionId\":\"a\",\"capabilities\":{}}}",
);

pub(crate) const CREATED_B: Told = Told::Hub(
    OK,
    "{\"value\":{\"sessionId\":\"b\",\"capabilities\":{}}}",
);

pub(crate) const NO_REQUESTS: Told = Told::Hub(OK, "{\"value\":[]}");

const B_RUNS: Told = Told::Hub(
    OK,
    "{\"value\":{\"ready\":false,\"message\":\"grid has no free slot\",\"nodes\":[{\"node\":1,\"name\":\"n\",\"address\":\"n:1\",\"availability\":\"UP\",\"maxSessions\":1,\"slots\":[{\"stereotype\":{},\"states\":[{\"slot\":0,\"state\":\"BUSY\",\"session\":\"b\"}]}]}]}}",
);

/// Its client sent this one request, and closed.
pub(crate) const ONE_SERVED: Option<Result<Served, ConnFault>> = Some(Ok(Served {
    frames: 1,
    end: End::Closed,
    short: false,
}));

const LEAVES: Caller = Caller {
    sends: &[NEW_SESSION],
    leaves: Some(100),
    replies: &[],
    silent: 0,
    told: &[],
    asks: "",
    ended: Some(Err(ConnFault::Read)),
};

/// The first client gets the only slot. Three wait behind it and leave, then its session is ended, and the last one is served while
/// no time passes. So two sessions are created in all: no node is asked for a third.
pub(crate) const THREE_LEAVE: Story = Story {
    registers: REGISTERS,
    callers: &[
        Caller {
            sends: &[NEW_SESSION],
            leaves: None,
            replies: &[CREATES_A],
            silent: 0,
            told: &[CREATED_A],
            asks: "POST n:1/session; ",
            ended: ONE_SERVED,
        },
        LEAVES,
        LEAVES,
        LEAVES,
        Caller {
            sends: &[DELETE_A],
            leaves: None,
            replies: &[ENDS],
            silent: 0,
            told: &[NULL],
            asks: "DELETE n:1/session/a; ",
            ended: ONE_SERVED,
        },
        Caller {
            sends: &[NEW_SESSION],
            leaves: None,
            replies: &[CREATES_B],
            silent: 0,
            told: &[CREATED_B],
            asks: "POST n:1/session; ",
            ended: ONE_SERVED,
        },
    ],
    scenes: &[
        Scene {
            places: &[0],
            times: 30,
            pause_ms: 0,
        },
        Scene {
            places: &[1, 2, 3],
            times: 250,
            pause_ms: 5,
        },
        Scene {
            places: &[4],
            times: 30,
            pause_ms: 0,
        },
        Scene {
            places: &[5],
            times: 30,
            pause_ms: 0,
        },
    ],
    after: &[B_RUNS, NO_REQUESTS],
};
