//! How long a start by a connection may take: as long as its request has left. It is about time alone, so no promise rests on it.
use grid_types::{HubConfig, LAST_MOMENT, time_to_wait};
use http_frames::NodeRequest;
use hub_conn::HubCall;
use hub_workers::start_limit;

/// How long a request waits for its session, and when that of the last one is over; both in milliseconds.
#[derive(Clone, Copy)]
pub(crate) struct Allowance {
    timeout_ms: u64,
    until: u64,
}

/// Whether a session is to be started (WebDriver §8.1).
fn is_start(request: &NodeRequest<'_>) -> bool {
    request.method == b"POST".as_slice() && request.target == b"/session".as_slice()
}

impl Allowance {
    /// Where requests that ask for no time of their own wait so long.
    pub(crate) fn new(timeout_ms: u64) -> Allowance {
        Allowance {
            timeout_ms,
            until: 0,
        }
    }

    /// The call is made at the moment: with a new request its time begins, the hub's own or what it asks for.
    pub(crate) fn note(&mut self, call: &HubCall, at: u64) {
        if let HubCall::Enqueue(choices) = call {
            let mut config = HubConfig::default();
            config.timeout_ms = self.timeout_ms;
            self.until = at.saturating_add(time_to_wait(choices, &config));
        }
    }

    /// How long an exchange may take that begins at the moment, in milliseconds.
    pub(crate) fn of(&self, request: &NodeRequest<'_>, at: u64) -> u64 {
        if is_start(request) {
            start_limit(self.until.saturating_sub(at))
        } else {
            LAST_MOMENT
        }
    }
}
