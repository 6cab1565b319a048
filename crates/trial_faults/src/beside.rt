//! A node that never answers, beside connections that share its thread.
use crate::callers::{Caller, Story};
use crate::leaving::{CREATED_B, CREATES_B, ENDS, NEW_SESSION, NO_REQUESTS};
use crate::table::Scene;
use crate::tables::{NULL, OK, Told};
use hub_serving::{End, Served};

/// A node with two slots registers.
const REGISTERS_TWO: &[u8] =
    b"POST /se/grid/distributor/node HTTP/1.1\r\nHost: h\r\nContent-Length: 82\r\n\r\n{\"name\":\"n\",\"address\":\"n:1\",\"maxSessions\":2,\"slots\":[{\"count\":2,\"stereotype\":{}}]}";

const USE_B: &[u8] = b"GET /session/b/url HTTP/1.1\r\nHost: h\r\n\r\n";

const DELETE_B: &[u8] = b"DELETE /session/b HTTP/1.1\r\nHost: h\r\n\r\n";

const URL: Told = Told::Raw("HTTP/1.1 200 R\r\nContent-Length: 13\r\n\r\n{\"value\":\"u\"}");

/// The slot of the start that isn't over is no one else's.
const ONE_STARTS: Told = Told::Hub(
    OK,
    "{\"value\":{\"ready\":true,\"message\":\"grid is ready\",\"nodes\":[{\"node\":1,\"name\":\"n\",\"address\":\"n:1\",\"availability\":\"UP\",\"maxSessions\":2,\"slots\":[{\"stereotype\":{},\"states\":[{\"slot\":0,\"state\":\"HELD\",\"session\":null},{\"slot\":1,\"state\":\"FREE\",\"session\":null}]}]}]}}",
);

/// The node never answers the first client. The session of the second one is created, used and ended meanwhile.
pub(crate) const ONE_HANGS: Story = Story {
    registers: REGISTERS_TWO,
    callers: &[
        Caller {
            sends: &[NEW_SESSION],
            leaves: None,
            replies: &[],
            silent: 1_000,
            told: &[],
            asks: "POST n:1/session; ",
            ended: None,
        },
        Caller {
            sends: &[NEW_SESSION, USE_B, DELETE_B],
            leaves: None,
            replies: &[CREATES_B, (200, "{\"value\":\"u\"}"), ENDS],
            silent: 0,
            told: &[CREATED_B, URL, NULL],
            asks: "POST n:1/session; GET n:1/session/b/url; DELETE n:1/session/b; ",
            ended: Some(Ok(Served {
                frames: 3,
                end: End::Closed,
                short: false,
            })),
        },
    ],
    scenes: &[Scene {
        places: &[0, 1],
        times: 200,
        pause_ms: 0,
    }],
    after: &[ONE_STARTS, NO_REQUESTS],
};
