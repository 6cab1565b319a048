//! What is counted over a journal. Each count stays at 2^64 - 1 once it is there.
ghost use Rattle.std.specs.Prelude.{◌≡◌, length, filter, nat_le};
ghost use Rattle.grid_log.specs.Past.{runs_on};
ghost use Rattle.grid_log.specs.Recalls.{recalled};
ghost use Rattle.grid_farm.specs.Counts.{counts_after, ended_with_node, is_back, is_withdrawn, no_counts, node_counts_after, plus, plus_if, plus_within, request_counts_after, session_counts_after, waited_in, with_kind, with_wait};

use crate::kind::{Kind, is_of};
use grid_log::{Recall, SessionRow};
use grid_types::{Change, Entry, NodeNo};

/// What happened to nodes.
#[derive(Clone, Copy, Debug, PartialEq, Eq)]
pub struct NodeCounts {
    pub registered: u64,
    pub suspected: u64,
    /// Suspect nodes that gave a sign of life.
    pub back: u64,
    pub draining: u64,
    pub removed: u64,
    pub lapsed: u64,
}

/// What happened to requests.
#[derive(Clone, Copy, Debug, PartialEq, Eq)]
pub struct RequestCounts {
    pub queued: u64,
    pub timed_out: u64,
    /// Those that were cleared from the queue, also by who asked.
    pub cleared: u64,
    /// Those that were cleared by who asked.
    pub withdrawn: u64,
    /// Those whose last start failed.
    pub refused: u64,
}

/// What happened to sessions.
#[derive(Clone, Copy, Debug, PartialEq, Eq)]
pub struct SessionCounts {
    pub created: u64,
    /// Starts that failed.
    pub failed: u64,
    /// Sessions that their clients ended.
    pub quit: u64,
    /// Sessions that were idle for too long.
    pub idle: u64,
    /// Sessions that ended with their node.
    pub with_node: u64,
}

/// How long the requests of the sessions that were created had waited, where the journal tells it.
#[derive(Clone, Copy, Debug, PartialEq, Eq)]
pub struct WaitCounts {
    /// Those that waited at most so many milliseconds.
    pub within_100: u64,
    pub within_500: u64,
    pub within_1000: u64,
    pub within_5000: u64,
    pub within_15000: u64,
    pub within_60000: u64,
    pub within_300000: u64,
    /// All of them.
    pub count: u64,
    /// What they waited together, in milliseconds.
    pub sum_ms: u64,
}

/// All counts.
#[derive(Clone, Copy, Debug, PartialEq, Eq)]
pub struct Counts {
    pub entries: u64,
    pub nodes: NodeCounts,
    pub requests: RequestCounts,
    pub sessions: SessionCounts,
    pub waits: WaitCounts,
}

fn plus(count: u64, more: u64) -> u64
    ensures { result ≡ plus count more }
{
    count.saturating_add(more)
}

fn plus_if(count: u64, holds: bool) -> u64
    ensures { result ≡ plus_if count holds }
{
    if holds { plus(count, 1) } else { count }
}

fn with_kind(count: u64, kind: Kind, change: &Change) -> u64
    ensures { result ≡ with_kind count kind change.now }
{
    plus_if(count, is_of(kind, change))
}

fn plus_within(count: u64, waited: u64, limit: u64) -> u64
    ensures { result ≡ plus_within count waited limit }
{
    plus_if(count, waited <= limit)
}

/// Whether a suspect node gives a sign of life.
fn is_back(past: &Recall, change: &Change) -> bool
    ensures { result ≡ is_back (recalled past.now) change.now }
{
    match change {
        Change::Beaten { node, .. } => past.is_suspect(*node),
        _ => false,
    }
}

/// Whether who asked withdraws a request.
fn is_withdrawn(past: &Recall, entry: &Entry) -> bool
    ensures { result ≡ is_withdrawn (recalled past.now) entry.now.caller entry.now.change }
{
    match entry.change {
        Change::Taken { request, .. } => past.was_just_cleared(entry.caller, request),
        _ => false,
    }
}

fn running_on(node: NodeNo, rows: &[SessionRow]) -> u64
    ensures { result ≡ length (filter (runs_on node) rows.now) }
{
    rows.iter().filter(|row| row.slot.node == node).count() as u64
}

/// How many sessions end with a node.
fn ended_with_node(past: &Recall, change: &Change) -> u64
    ensures { result ≡ ended_with_node (recalled past.now) change.now }
{
    match change {
        Change::Lapsed { node, .. } => running_on(*node, past.sessions()),
        _ => 0,
    }
}

/// How long the request of a session that is created had waited, in milliseconds.
fn waited_in(past: &Recall, change: &Change) -> Option<u64>
    ensures { result ≡ waited_in (recalled past.now) change.now }
{
    match change {
        Change::Bound { request, at, .. } => match past.queued(*request) {
            Some(queued) => Some(at.0.saturating_sub(queued)),
            None => None,
        },
        _ => None,
    }
}

impl NodeCounts {
    fn after(self, past: &Recall, change: &Change) -> NodeCounts
        ensures { result ≡ node_counts_after self (recalled past.now) change.now }
    {
        NodeCounts {
            registered: with_kind(self.registered, Kind::Registered, change),
            suspected: with_kind(self.suspected, Kind::Suspected, change),
            back: plus_if(self.back, is_back(past, change)),
            draining: with_kind(self.draining, Kind::Draining, change),
            removed: with_kind(self.removed, Kind::Removed, change),
            lapsed: with_kind(self.lapsed, Kind::Lapsed, change),
        }
    }
}

impl RequestCounts {
    fn after(self, past: &Recall, entry: &Entry) -> RequestCounts
        ensures { result ≡ request_counts_after self (recalled past.now) entry.now }
    {
        let change = &entry.change;
        RequestCounts {
            queued: with_kind(self.queued, Kind::Queued, change),
            timed_out: with_kind(self.timed_out, Kind::TimedOut, change),
            cleared: with_kind(self.cleared, Kind::Cleared, change),
            withdrawn: plus_if(self.withdrawn, is_withdrawn(past, entry)),
            refused: with_kind(self.refused, Kind::Refused, change),
        }
    }
}

impl SessionCounts {
    fn after(self, past: &Recall, change: &Change) -> SessionCounts
        ensures { result ≡ session_counts_after self (recalled past.now) change.now }
    {
        SessionCounts {
            created: with_kind(self.created, Kind::Created, change),
            failed: with_kind(self.failed, Kind::Failed, change),
            quit: with_kind(self.quit, Kind::Quit, change),
            idle: with_kind(self.idle, Kind::Idle, change),
            with_node: plus(self.with_node, ended_with_node(past, change)),
        }
    }
}

impl WaitCounts {
    fn with(self, waited: Option<u64>) -> WaitCounts
        ensures { result ≡ with_wait self waited }
    {
        let Some(waited) = waited else {
            return self;
        };
        WaitCounts {
            within_100: plus_within(self.within_100, waited, 100),
            within_500: plus_within(self.within_500, waited, 500),
            within_1000: plus_within(self.within_1000, waited, 1_000),
            within_5000: plus_within(self.within_5000, waited, 5_000),
            within_15000: plus_within(self.within_15000, waited, 15_000),
            within_60000: plus_within(self.within_60000, waited, 60_000),
            within_300000: plus_within(self.within_300000, waited, 300_000),
            count: plus(self.count, 1),
            sum_ms: plus(self.sum_ms, waited),
        }
    }
}

impl Counts {
    /// Nothing was counted yet.
    pub(crate) fn new() -> Counts
        ensures { result ≡ no_counts }
    {
        Counts {
            entries: 0,
            nodes: NodeCounts {
                registered: 0,
                suspected: 0,
                back: 0,
                draining: 0,
                removed: 0,
                lapsed: 0,
            },
            requests: RequestCounts {
                queued: 0,
                timed_out: 0,
                cleared: 0,
                withdrawn: 0,
                refused: 0,
            },
            sessions: SessionCounts {
                created: 0,
                failed: 0,
                quit: 0,
                idle: 0,
                with_node: 0,
            },
            waits: WaitCounts {
                within_100: 0,
                within_500: 0,
                within_1000: 0,
                within_5000: 0,
                within_15000: 0,
                within_60000: 0,
                within_300000: 0,
                count: 0,
                sum_ms: 0,
            },
        }
    }

    /// The counts with an entry, where so much is past.
    pub(crate) fn after(self, past: &Recall, entry: &Entry) -> Counts
        ensures { result ≡ counts_after self (recalled past.now) entry.now }
    {
        Counts {
            entries: plus(self.entries, 1),
            nodes: self.nodes.after(past, &entry.change),
            requests: self.requests.after(past, entry),
            sessions: self.sessions.after(past, &entry.change),
            waits: self.waits.with(waited_in(past, &entry.change)),
        }
    }
}
