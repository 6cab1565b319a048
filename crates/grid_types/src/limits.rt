//! The limits of what callers hand in and of what a hub keeps, each named once.
ghost use Rattle.std.specs.Prelude.{◌≡◌, ◌-◌, ◌^◌};
ghost use Rattle.grid_types.specs.declared.limits.TheConstants.{LAST_MOMENT, LEAST_IDLE_MS, LEAST_LAPSE_MS, LEAST_QUEUE_TIME_MS, MOST_CHOICES, MOST_DOWN_MS, MOST_DRAIN_AFTER, MOST_IDLE_MS, MOST_LAPSE_MS, MOST_NAME_BYTES, MOST_NODES, MOST_QUEUE_BYTES, MOST_QUEUE_TIME_MS, MOST_REQUESTS, MOST_SESSIONS, MOST_SLOTS};

/// The most alternative lists of capabilities that a request may have.
pub const MOST_CHOICES: usize = 64;

/// The most slots of a node.
pub const MOST_SLOTS: u32 = 64;

/// The most sessions that a node may take at once.
pub const MOST_SESSIONS: u32 = 64;

/// The most bytes of a node's name.
pub const MOST_NAME_BYTES: usize = 64;

/// The most nodes that a hub lists.
pub const MOST_NODES: usize = 1_024;

/// The most requests that may wait or be held at once.
pub const MOST_REQUESTS: u32 = 10_000;

/// The most bytes, written as JSON, of all requests that wait or are held.
pub const MOST_QUEUE_BYTES: u64 = 268_435_456;

/// The last moment in milliseconds, 2^62 - 1: no clock shows a later one, and no deadline is later.
pub const LAST_MOMENT: u64 = 4_611_686_018_427_387_903;

/// The least milliseconds that a request may wait.
pub const LEAST_QUEUE_TIME_MS: u64 = 1_000;

/// The most milliseconds that a request may wait, a day.
pub const MOST_QUEUE_TIME_MS: u64 = 86_400_000;

/// The least milliseconds without a touch until a session is idle.
pub const LEAST_IDLE_MS: u64 = 10_000;

/// The most milliseconds without a touch until a session is idle, a day.
pub const MOST_IDLE_MS: u64 = 86_400_000;

/// The least milliseconds without a beat until a node is suspect.
pub const LEAST_LAPSE_MS: u64 = 1_000;

/// The most milliseconds without a beat until a node is suspect, a day.
pub const MOST_LAPSE_MS: u64 = 86_400_000;

/// The most milliseconds without a beat until a node is taken for down, two days.
pub const MOST_DOWN_MS: u64 = 172_800_000;

/// The greatest count of sessions after which a node may ask to be drained.
pub const MOST_DRAIN_AFTER: u32 = 1_000_000;

/// The number behind each name, since definitions cite the names. It does nothing.
pub fn fixed_limits()
    ensures choices { MOST_CHOICES ≡ 64 }
    ensures slots { MOST_SLOTS ≡ 64 }
    ensures sessions { MOST_SESSIONS ≡ 64 }
    ensures name_bytes { MOST_NAME_BYTES ≡ 64 }
    ensures nodes { MOST_NODES ≡ 1024 }
    ensures requests { MOST_REQUESTS ≡ 10000 }
    ensures queue_bytes { MOST_QUEUE_BYTES ≡ 268435456 }
    ensures moment { LAST_MOMENT ≡ 2 ^ 62 - 1 }
    ensures least_queue_time { LEAST_QUEUE_TIME_MS ≡ 1000 }
    ensures most_queue_time { MOST_QUEUE_TIME_MS ≡ 86400000 }
    ensures least_idle { LEAST_IDLE_MS ≡ 10000 }
    ensures most_idle { MOST_IDLE_MS ≡ 86400000 }
    ensures least_lapse { LEAST_LAPSE_MS ≡ 1000 }
    ensures most_lapse { MOST_LAPSE_MS ≡ 86400000 }
    ensures most_down { MOST_DOWN_MS ≡ 172800000 }
    ensures drain_after { MOST_DRAIN_AFTER ≡ 1000000 }
{}
