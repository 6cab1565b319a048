//! The configuration of a hub.
ghost use Rattle.std.specs.Prelude.{◌↔◌, IsTrue};
ghost use Rattle.grid_types.specs.Config.{IsValid};

use crate::limits::{
    LEAST_IDLE_MS, LEAST_LAPSE_MS, LEAST_QUEUE_TIME_MS, MOST_DOWN_MS, MOST_IDLE_MS, MOST_LAPSE_MS,
    MOST_QUEUE_TIME_MS, MOST_REQUESTS,
};
use crate::names::{NodeNo, ReqNo};

/// What a hub is set up with. It is fixed for the hub's life, and [`HubConfig::is_valid`] says which values a hub takes.
#[derive(Clone, Copy, Debug, PartialEq, Eq)]
pub struct HubConfig {
    /// Milliseconds from a request's queuing to its deadline: 1,000 to 86,400,000.
    pub timeout_ms: u64,
    /// Milliseconds without a touch after which a session is idle: 10,000 to 86,400,000.
    pub idle_ms: u64,
    /// Milliseconds without a beat after which a node is suspect: 1,000 to 86,400,000.
    pub lapse_ms: u64,
    /// How many requests may wait or be held at once: 1 to 10,000.
    pub queue_requests: u32,
    /// Whether a request is refused that no slot of a registered node matches.
    pub reject_unsupported: bool,
    /// The number of the first registration, at least 1.
    pub first_node: NodeNo,
    /// The number of the first request, at least 1.
    pub first_request: ReqNo,
    /// Milliseconds without a beat after which a node is down: from `lapse_ms` to 172,800,000.
    pub down_ms: u64,
}

impl HubConfig {
    /// Whether every part is within its limits. What makes a hub asks for it.
    pub fn is_valid(&self) -> bool
        ensures { IsTrue result ↔ IsValid self.now }
    {
        self.timeout_ms >= LEAST_QUEUE_TIME_MS
            && self.timeout_ms <= MOST_QUEUE_TIME_MS
            && self.idle_ms >= LEAST_IDLE_MS
            && self.idle_ms <= MOST_IDLE_MS
            && self.lapse_ms >= LEAST_LAPSE_MS
            && self.lapse_ms <= MOST_LAPSE_MS
            && self.queue_requests >= 1
            && self.queue_requests <= MOST_REQUESTS
            && self.first_node >= 1
            && self.first_request >= 1
            && self.down_ms >= self.lapse_ms
            && self.down_ms <= MOST_DOWN_MS
    }
}

impl Default for HubConfig {
    ghost use Rattle.std.specs.Prelude.{◌≡◌};
    ghost use Rattle.grid_types.specs.Config.{default_config};

    ghost is_default = { λ c. c ≡ default_config };

    /// 300 s to a deadline and to idleness, 120 s until a node is suspect and 240 s until it is down, 10,000 requests,
    /// no refusal of the unsupported, numbers from 1.
    fn default() -> Self {
        HubConfig {
            timeout_ms: 300_000,
            idle_ms: 300_000,
            lapse_ms: 120_000,
            queue_requests: MOST_REQUESTS,
            reject_unsupported: false,
            first_node: 1,
            first_request: 1,
            down_ms: 240_000,
        }
    }
}
