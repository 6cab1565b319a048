//! Each append of a hub's journal fails in turn, and the hub goes on once one does not.
ghost use Rattle.std.specs.Prelude.{◌≡◌};
ghost use Rattle.hub_cell.specs.Passes.{IsOf};

use grid_outside::MemSource;
use grid_types::{Bytes, HubConfig, Moment, SessionId};
use hub_cell::{Pass, SharedHub};
use hub_core::{Binding, Ending, Enqueued, Polled, Registering};
use hub_opening::begin;
use journal_keeper::{Keeping, MemKeeper};
use journal_verdicts::{Verdict, check};
use std::alloc::Global;
use std::sync::Wait;
use trial_desk::{caps_of, choices_of, registration_of};

/// The head, and one append a call: a node, a request, its slot, its session, a use of that and its end.
const APPENDS: u64 = 7;

/// Lists a node, queues a request, binds a session for it, uses that and ends it. Whether each call did so.
pub(crate) fn play<R: Wait>(rt: &R, alloc: Global, hub: &SharedHub, pass: &mut Pass) -> Option<()>
    requires { IsOf hub.now pass.old }
    ensures { IsOf hub.now pass.new }
{
    let session = SessionId::from_bytes(b"a")?;
    let node = registration_of(alloc, 0, 0, false, 0).ok()?;
    let Ok(Registering::Registered(1)) = hub.register(rt, pass, node, Moment(0)) else {
        return None;
    };
    let choices = choices_of(alloc, 0, 0, 0).ok()?;
    let Ok(Enqueued::Queued(ticket)) = hub.enqueue(rt, pass, choices, Moment(1)) else {
        return None;
    };
    let Ok(Polled::Yours(_, reservation)) = hub.poll(rt, pass, ticket, Moment(2)) else {
        return None;
    };
    let caps = caps_of(alloc, 0).ok()?;
    let Ok(Binding::Bound(number)) = hub.bind(rt, pass, reservation, session, caps, Moment(3))
    else {
        return None;
    };
    hub.touch(rt, pass, &session, number, Moment(4)).ok()?;
    match hub.end(rt, pass, &session, number, Moment(5)) {
        Ok(Ending::Ended(_)) => Some(()),
        _ => None,
    }
}

/// What a hub keeps of this where the appends with these numbers fail, each after at most so many bytes.
fn kept<R: Wait>(rt: &R, alloc: Global, part: usize, fails: &[u64]) -> Option<Bytes> {
    let mut planned = Vec::new(alloc);
    planned.extend_from_slice(fails).ok()?;
    let keeping = Keeping::Memory(MemKeeper::new(alloc, part, planned));
    let (hub, mut pass) = begin(rt, alloc, HubConfig::default(), keeping, 1, 1).ok()?;
    let played = play(rt, alloc, &hub, &mut pass);
    let kept = hub.kept(rt, &mut pass);
    drop(pass);
    hub.close(rt);
    played?;
    kept.ok()?
}

/// What a check says of the bytes.
pub(crate) fn verdict(alloc: Global, bytes: Bytes) -> Option<Verdict> {
    check(alloc, &mut MemSource::new(bytes, 64, Vec::new(alloc))).ok()
}

/// Registered, Queued, Reserved, Bound, Touched and Ended.
fn is_legal(alloc: Global, whole: &Bytes) -> Option<bool> {
    let bytes = Bytes::of(alloc, whole.as_bytes()).ok()?;
    Some(verdict(alloc, bytes) == Some(Verdict::Legal { entries: 6 }))
}

/// Whether as much is kept where these appends fail.
fn is_kept_too<R: Wait>(rt: &R, alloc: Global, whole: &Bytes, part: usize, fails: &[u64]) -> bool {
    match kept(rt, alloc, part, fails) {
        Some(other) => other.as_bytes() == whole.as_bytes(),
        None => false,
    }
}

/// Each append fails in turn: not at all, in part, and whole, though it says that it failed.
fn all_are_kept<R: Wait>(rt: &R, alloc: Global, whole: &Bytes, parts: &[usize]) -> bool {
    for number in 0..APPENDS {
        for part in parts {
            if !is_kept_too(rt, alloc, whole, *part, &[number]) {
                return false;
            }
        }
    }
    true
}

const PARTS: &[usize] = &[0, 5, 1_000];

fn goes_on<R: Wait>(rt: &R, alloc: Global) -> Option<bool> {
    let whole = kept(rt, alloc, 0, &[])?;
    Some(
        is_legal(alloc, &whole)?
            && all_are_kept(rt, alloc, &whole, PARTS)
            && is_kept_too(rt, alloc, &whole, 3, &[2, 3, 4, 5]),
    )
}

/// What is kept is a legal journal, and the same where appends fail, one in turn or several one behind the other.
#[test]
fn a_hub_goes_on_past_failed_appends(rt: HostRuntime) {
    assert!(rt; goes_on(&rt, rt.alloc()) == Some(true));
}
