//! The calls that go over all nodes or all requests, with a change for each that is met, which the recorder is told.
//! Calls of `history_laws` are for the proofs alone.
ghost use Rattle.std.specs.Prelude.{◌≡◌, true, Some};
ghost use Rattle.grid_types.specs.declared.entry.Change.TheVariants as change;
ghost use Rattle.grid_types.specs.Requests.{waiting_requests};
ghost use Rattle.grid_types.specs.Calls.{Call, Reply};
ghost use Rattle.grid_types.specs.HubAnswers.{lapsed_nodes, silent_nodes, overdue_requests, drained_nodes};
ghost use Rattle.hub_core.specs.Replies.{swept_reply};
ghost use Rattle.hub_core.specs.Recorded.{ForSome, StandsAt, StandsHeld, RecordsCall};
ghost use Rattle.hub_core.specs.Sweeps.{NotesEach};

use crate::answers::Swept;
use crate::hub::HubCore;
use crate::recorder::Recorder;
use grid_types::{Change, Moment, history_laws};

/// Lets the nodes lapse that were silent for too long, makes the other silent ones suspect, times out the requests
/// whose deadline is reached, and takes off the drained nodes that have no slot in use.
pub(crate) fn sweep<R: Recorder>(core: &mut HubCore, recorder: &mut R, at: Moment) -> Swept
    requires { R.asks ≡ true → ForSome R.Whose
        (λ whose H. StandsHeld core.old (R.holds recorder.old whose) H) }
    ensures { (whose : R.Whose) → RecordsCall core.old (R.holds recorder.old whose) core.new
        (R.holds recorder.new whose) (R.caller_of whose) Call.sweep at.0 (swept_reply result) }
{
    history_laws();
    let now = core.tables.raised(at);
    let lapsed = lapse_nodes(core, recorder, now);
    let suspected = suspect_nodes(core, recorder, now);
    let timed_out = time_out_requests(core, recorder, now);
    let removed = remove_drained(core, recorder, now);
    core.note_signs(now);
    Swept {
        lapsed,
        suspected,
        timed_out,
        removed,
    }
}

/// Clears each waiting request from the queue, and tells how many there were.
pub(crate) fn clear<R: Recorder>(core: &mut HubCore, recorder: &mut R, at: Moment) -> u32
    requires { R.asks ≡ true → ForSome R.Whose
        (λ whose H. StandsHeld core.old (R.holds recorder.old whose) H) }
    ensures { (whose : R.Whose) → RecordsCall core.old (R.holds recorder.old whose) core.new
        (R.holds recorder.new whose) (R.caller_of whose) Call.clear at.0
        (Some (Reply.cleared result)) }
{
    history_laws();
    let now = core.tables.raised(at);
    clear_requests(core, recorder, now)
}

/// Lets each node lapse that was silent for too long, and tells how many there were.
fn lapse_nodes<R: Recorder>(core: &mut HubCore, recorder: &mut R, now: Moment) -> u32
    requires { R.asks ≡ true → ForSome R.Whose
        (λ whose H. StandsAt core.old (R.holds recorder.old whose) now.0 H) }
    ensures { (whose : R.Whose) → NotesEach (λ H. lapsed_nodes core.old.config H now.0)
        (λ n. change.Lapsed n now) core.old (R.holds recorder.old whose) core.new
        (R.holds recorder.new whose) (R.caller_of whose) now.0 result }
{
    history_laws();
    let mut count: u32 = 0;
    let mut from = 0;
    while let Some(node) = core.tables.next_lapsed(from, now, &core.config) {
        core.tables.note_lapsed(node, now);
        recorder.record(Change::Lapsed { node, at: now });
        from = u64::from(node) + 1;
        count = count.saturating_add(1);
    }
    count
}

/// Makes each node suspect that is silent and not suspect yet, and tells how many there were.
fn suspect_nodes<R: Recorder>(core: &mut HubCore, recorder: &mut R, now: Moment) -> u32
    requires { R.asks ≡ true → ForSome R.Whose
        (λ whose H. StandsAt core.old (R.holds recorder.old whose) now.0 H) }
    ensures { (whose : R.Whose) → NotesEach (λ H. silent_nodes core.old.config H now.0)
        (λ n. change.Suspected n now) core.old (R.holds recorder.old whose) core.new
        (R.holds recorder.new whose) (R.caller_of whose) now.0 result }
{
    history_laws();
    let mut count: u32 = 0;
    let mut from = 0;
    while let Some(node) = core.tables.next_silent(from, now, &core.config) {
        core.tables.note_suspected(node, now);
        recorder.record(Change::Suspected { node, at: now });
        from = u64::from(node) + 1;
        count = count.saturating_add(1);
    }
    count
}

/// Times out each request whose deadline is reached, and tells how many there were.
fn time_out_requests<R: Recorder>(core: &mut HubCore, recorder: &mut R, now: Moment) -> u32
    requires { R.asks ≡ true → ForSome R.Whose
        (λ whose H. StandsAt core.old (R.holds recorder.old whose) now.0 H) }
    ensures { (whose : R.Whose) → NotesEach (λ H. overdue_requests H now.0)
        (λ r. change.TimedOut r now) core.old (R.holds recorder.old whose) core.new
        (R.holds recorder.new whose) (R.caller_of whose) now.0 result }
{
    history_laws();
    let mut count: u32 = 0;
    let mut last = 0;
    while let Some(request) = core.tables.next_overdue(last, now) {
        core.tables.note_timed_out(request, now);
        recorder.record(Change::TimedOut { request, at: now });
        last = request;
        count = count.saturating_add(1);
    }
    count
}

/// Takes off each draining node that has no slot in use, and tells how many there were.
fn remove_drained<R: Recorder>(core: &mut HubCore, recorder: &mut R, now: Moment) -> u32
    requires { R.asks ≡ true → ForSome R.Whose
        (λ whose H. StandsAt core.old (R.holds recorder.old whose) now.0 H) }
    ensures { (whose : R.Whose) → NotesEach (λ H. drained_nodes H) (λ n. change.Removed n now)
        core.old (R.holds recorder.old whose) core.new (R.holds recorder.new whose)
        (R.caller_of whose) now.0 result }
{
    history_laws();
    let mut count: u32 = 0;
    let mut from = 0;
    while let Some(node) = core.tables.next_drained(from) {
        core.tables.note_removed(node, now);
        recorder.record(Change::Removed { node, at: now });
        from = u64::from(node) + 1;
        count = count.saturating_add(1);
    }
    count
}

/// Clears each waiting request, and tells how many there were.
fn clear_requests<R: Recorder>(core: &mut HubCore, recorder: &mut R, now: Moment) -> u32
    requires { R.asks ≡ true → ForSome R.Whose
        (λ whose H. StandsAt core.old (R.holds recorder.old whose) now.0 H) }
    ensures { (whose : R.Whose) → NotesEach (λ H. waiting_requests H) (λ r. change.Cleared r now)
        core.old (R.holds recorder.old whose) core.new (R.holds recorder.new whose)
        (R.caller_of whose) now.0 result }
{
    history_laws();
    let mut count: u32 = 0;
    let mut last = 0;
    while let Some(request) = core.tables.next_waiting(last) {
        core.tables.note_cleared(request, now);
        recorder.record(Change::Cleared { request, at: now });
        last = request;
        count = count.saturating_add(1);
    }
    count
}
