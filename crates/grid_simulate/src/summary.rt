//! What a summary counts.
ghost use Rattle.std.specs.Prelude.{◌≡◌, ◌≤◌, length, IfOk};
ghost use Rattle.grid_types.specs.History.{history_of};
ghost use Rattle.grid_types.specs.Bindings.{binding_told};
ghost use Rattle.grid_types.specs.Requests.{waiting_requests};
ghost use Rattle.grid_types.specs.Sessions.{is_live, is_on_node, live_bindings};
ghost use Rattle.hub_core.specs.HubView.{past};
ghost use Rattle.grid_simulate.specs.Counts.{count, summary_of};
ghost use Rattle.grid_simulate.specs.Kinds.{is_of};
ghost use Rattle.grid_simulate.specs.Running.{live_by, slot_by, live_in};

use grid_types::{Change, Entry, NoMemory, NodeNo, ReqNo, SlotId, WaitView};
use hub_core::LocalHub;

/// Counts over a simulation's journal.
#[derive(Clone, Copy, Debug, PartialEq, Eq)]
pub struct Summary {
    /// Requests that were queued.
    pub queued: u64,
    /// Sessions that were created.
    pub created: u64,
    /// Requests that timed out.
    pub timed_out: u64,
    /// Requests whose last start failed.
    pub refused: u64,
    /// Requests that were cleared from the queue.
    pub cleared: u64,
    /// Requests that wait.
    pub waiting: u64,
    /// Failed starts behind which their request went on.
    pub retried: u64,
    /// Sessions that were ended.
    pub ended: u64,
    /// Nodes that lapsed.
    pub lapsed: u64,
    /// Sessions that run.
    pub live: u64,
}

/// Whether the binding is live after the entries.
fn is_live(journal: &[Entry], binding: ReqNo) -> bool
    ensures { result ≡ is_live (history_of journal.now) binding }
{
    let mut live = false;
    let mut slot = None;
    for entry in journal {
        live = live_after(&entry.change, binding, slot, live);
        slot = slot_after(&entry.change, binding, slot);
    }
    live
}

/// Whether the binding is live after the change. It had the slot, and was live or not before.
fn live_after(change: &Change, binding: ReqNo, slot: Option<SlotId>, live: bool) -> bool
    ensures { result ≡ live_by change.now binding slot live }
{
    match change {
        Change::Bound { request, .. } => live || *request == binding,
        Change::Ended { binding: ended, .. } => live && *ended != binding,
        Change::Lapsed { node, .. } => live && !is_on_node(*node, slot),
        _ => live,
    }
}

fn is_on_node(node: NodeNo, slot: Option<SlotId>) -> bool
    ensures { result ≡ is_on_node node slot }
{
    match slot {
        Some(slot) => slot.node == node,
        None => false,
    }
}

/// The binding's slot after the change.
fn slot_after(change: &Change, binding: ReqNo, slot: Option<SlotId>) -> Option<SlotId>
    ensures { result ≡ slot_by change.now binding slot }
{
    match change {
        Change::Bound {
            request,
            slot: bound,
            ..
        } => {
            if *request == binding {
                return Some(*bound);
            }
            slot
        }
        _ => slot,
    }
}

/// 1 where the change makes a binding that is live after the entries, else 0.
fn live_in(journal: &[Entry], change: &Change) -> u64
    ensures value { result ≡ live_in (history_of journal.now) (binding_told change.now) }
    ensures most { result ≤ 1 }
{
    match change {
        Change::Bound { request, .. } => {
            if is_live(journal, *request) {
                return 1;
            }
            0
        }
        _ => 0,
    }
}

/// How many bindings are live.
fn live_count(journal: &[Entry]) -> u64
    ensures { result ≡ length (live_bindings (history_of journal.now)) }
{
    let mut count: u64 = 0;
    for entry in journal {
        let more = live_in(journal, &entry.change);
        count += more;
    }
    count
}

fn length_of(views: &[WaitView]) -> u64
    ensures { result ≡ length views.now }
{
    views.len() as u64
}

/// How many requests wait at the hub. Err is out of memory.
fn waiting_count(hub: &LocalHub) -> Result<u64, NoMemory>
    ensures { IfOk result (λ n. n ≡ length (waiting_requests (past hub.now))) }
{
    let view = hub.view()?;
    let waiting = view.waiting.items();
    Ok(length_of(waiting))
}

/// What kind of entry is counted.
#[derive(Clone, Copy)]
enum Kind {
    Queued,
    Created,
    TimedOut,
    Refused,
    Cleared,
    Retried,
    Ended,
    Lapsed,
}

/// Whether the change is of the kind.
fn is_of(kind: Kind, change: &Change) -> bool
    ensures { result ≡ is_of kind change.now }
{
    match kind {
        Kind::Queued => matches!(change, Change::Queued { .. }),
        Kind::Created => matches!(change, Change::Bound { .. }),
        Kind::TimedOut => matches!(change, Change::TimedOut { .. }),
        Kind::Refused => matches!(change, Change::Failed { last: true, .. }),
        Kind::Cleared => matches!(change, Change::Cleared { .. }),
        Kind::Retried => matches!(change, Change::Failed { last: false, .. }),
        Kind::Ended => matches!(change, Change::Ended { .. }),
        Kind::Lapsed => matches!(change, Change::Lapsed { .. }),
    }
}

/// How many entries are of the kind.
fn count(journal: &[Entry], kind: Kind) -> u64
    ensures { result ≡ count (is_of kind) (history_of journal.now) }
{
    let mut count: u64 = 0;
    for entry in journal {
        if is_of(kind, &entry.change) {
            count += 1;
        }
    }
    count
}

impl Summary {
    /// The counts over a hub's journal. Err is out of memory.
    pub fn of(hub: &LocalHub) -> Result<Summary, NoMemory>
        ensures { IfOk result (λ s. s ≡ summary_of (past hub.now)) }
    {
        let waiting = waiting_count(hub)?;
        let journal = hub.journal();
        Ok(Summary {
            queued: count(journal, Kind::Queued),
            created: count(journal, Kind::Created),
            timed_out: count(journal, Kind::TimedOut),
            refused: count(journal, Kind::Refused),
            cleared: count(journal, Kind::Cleared),
            waiting,
            retried: count(journal, Kind::Retried),
            ended: count(journal, Kind::Ended),
            lapsed: count(journal, Kind::Lapsed),
            live: live_count(journal),
        })
    }
}
