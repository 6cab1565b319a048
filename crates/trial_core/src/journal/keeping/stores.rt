//! A hub by what a store in memory has of the journal of one that ended.
ghost use Rattle.std.specs.Prelude.{◌≡◌, IfOk};
ghost use Rattle.grid_types.specs.Config.{IsValid};
ghost use Rattle.hub_cell.specs.Passes.{IsOf};

use crate::journal::keeping::failing::{play, verdict};
use grid_ledger::GridLedger;
use grid_opening::Ender;
use grid_replay::Replay;
use grid_types::{Bytes, HubConfig, Moment, NodeNo, SessionId, SlotId};
use hub_cell::{Pass, SharedHub};
use hub_core::{Binding, Enqueued, Polled, Registering, Removal};
use hub_opening::begin;
use hub_store::{HubOption, MemStore, StoreFault, Unopened, open_store};
use journal_keeper::{Keeping, MemKeeper};
use journal_verdicts::Verdict;
use std::alloc::Global;
use std::sync::Wait;
use trial_desk::{caps_of, choices_of, registration_of};

/// The head of a journal has so many bytes.
const HEAD_BYTES: usize = 57;

/// The last entry of the journal of `play` has so many bytes: length, caller, kind, binding, cause and moment.
const LAST_BYTES: usize = 26;

/// What a hub did before it ended.
#[derive(Clone, Copy)]
enum Before {
    /// A session came and went, and its slot is closing.
    Session,
    /// The node made a session of another browser, which is left over there.
    LeftOver,
    /// The one node was removed.
    Removed,
}

/// A node makes a session that was not asked for.
fn play_left_over<R: Wait>(rt: &R, alloc: Global, hub: &SharedHub, pass: &mut Pass) -> Option<()>
    requires { IsOf hub.now pass.old }
    ensures { IsOf hub.now pass.new }
{
    let node = registration_of(alloc, 0, 0, false, 0).ok()?;
    let Ok(Registering::Registered(1)) = hub.register(rt, pass, node, Moment(0)) else {
        return None;
    };
    let choices = choices_of(alloc, 0, 0, 0).ok()?;
    let Ok(Enqueued::Queued(ticket)) = hub.enqueue(rt, pass, choices, Moment(1)) else {
        return None;
    };
    let Ok(Polled::Yours(_, reservation)) = hub.poll(rt, pass, ticket, Moment(2)) else {
        return None;
    };
    let session = SessionId::from_bytes(b"left")?;
    let caps = caps_of(alloc, 1).ok()?;
    match hub.bind(rt, pass, reservation, session, caps, Moment(3)) {
        Ok(Binding::Mismatch(_)) => Some(()),
        _ => None,
    }
}

/// The one node is removed.
fn play_removed<R: Wait>(rt: &R, alloc: Global, hub: &SharedHub, pass: &mut Pass) -> Option<()>
    requires { IsOf hub.now pass.old }
    ensures { IsOf hub.now pass.new }
{
    let node = registration_of(alloc, 0, 0, false, 0).ok()?;
    let Ok(Registering::Registered(1)) = hub.register(rt, pass, node, Moment(0)) else {
        return None;
    };
    match hub.remove(rt, pass, 1, Moment(1)) {
        Ok(Removal::Removed) => Some(()),
        _ => None,
    }
}

/// Does what was done before.
fn play_as<R: Wait>(
    rt: &R,
    alloc: Global,
    hub: &SharedHub,
    pass: &mut Pass,
    before: Before,
) -> Option<()>
    requires { IsOf hub.now pass.old }
    ensures { IsOf hub.now pass.new }
{
    match before {
        Before::Session => play(rt, alloc, hub, pass),
        Before::LeftOver => play_left_over(rt, alloc, hub, pass),
        Before::Removed => play_removed(rt, alloc, hub, pass),
    }
}

/// The journal of a hub that did this.
fn journal<R: Wait>(rt: &R, alloc: Global, before: Before) -> Option<Bytes> {
    let keeping = Keeping::Memory(MemKeeper::new(alloc, 0, Vec::new(alloc)));
    let (hub, mut pass) = begin(rt, alloc, HubConfig::default(), keeping, 1, 1).ok()?;
    let played = play_as(rt, alloc, &hub, &mut pass, before);
    let kept = hub.kept(rt, &mut pass);
    drop(pass);
    hub.close(rt);
    played?;
    kept.ok()?
}

/// Notes the session that is to end at a closing slot.
#[derive(Drop)]
struct Asked {
    session: Option<SessionId>,
}

impl Ender<Replay> for Asked {
    fn end(&mut self, _ledger: &GridLedger, listener: &Replay, slot: SlotId) {
        self.session = listener.last_at(slot);
    }
}

/// What came of an opening.
#[derive(Drop)]
struct Told {
    fault: Option<StoreFault>,
    /// What the hub keeps.
    kept: Option<Bytes>,
    /// The number of a node that it lists then.
    node: Option<NodeNo>,
    /// How often the store was to hand its bytes over.
    handed: u64,
    aside: Option<Bytes>,
    asked: Option<SessionId>,
}

/// The number of a node that the hub lists.
fn lists<R: Wait>(rt: &R, alloc: Global, hub: &SharedHub, pass: &mut Pass) -> Option<NodeNo>
    requires { IsOf hub.now pass.old }
    ensures { IsOf hub.now pass.new }
{
    let node = registration_of(alloc, 0, 0, false, 0).ok()?;
    match hub.register(rt, pass, node, Moment(9)) {
        Ok(Registering::Registered(number)) => Some(number),
        _ => None,
    }
}

/// Notes what the hub keeps, and ends it.
fn note<R: Wait>(
    rt: &R,
    alloc: Global,
    opened: Result<(SharedHub, Pass), Unopened>,
    came: &mut Told,
)
    requires { IfOk opened (λ r. IsOf r.0 r.1) }
{
    match opened {
        Ok((hub, mut pass)) => {
            if let Ok(kept) = hub.kept(rt, &mut pass) {
                came.kept = kept;
            }
            came.node = lists(rt, alloc, &hub, &mut pass);
            drop(pass);
            hub.close(rt);
        }
        Err(unopened) => came.fault = Some(unopened.fault),
    }
}

/// What comes of the opening of these bytes, where the calls of the store with these numbers fail.
fn came<R: Wait>(
    rt: &R,
    alloc: Global,
    bytes: &[u8],
    config: HubConfig,
    fails: &[u64],
) -> Option<Told>
    requires { IsValid config }
{
    let mut planned = Vec::new(alloc);
    planned.extend_from_slice(fails).ok()?;
    let mut store = MemStore::new(alloc, Bytes::of(alloc, bytes).ok()?, 64, planned, Moment(7));
    let mut asked = Asked { session: None };
    let mut came = Told {
        fault: None,
        kept: None,
        node: None,
        handed: 0,
        aside: None,
        asked: None,
    };
    let opened = open_store(rt, alloc, config, &mut store, &mut asked, 1);
    note(rt, alloc, opened, &mut came);
    came.handed = store.handed();
    if let Some(aside) = store.aside() {
        came.aside = Bytes::of(alloc, aside).ok();
    }
    came.asked = asked.session;
    Some(came)
}

/// Whether a hub keeps a legal journal that begins with these bytes.
fn keeps(alloc: Global, came: Told, front: &[u8]) -> bool {
    let Told { kept, .. } = came;
    let Some(kept) = kept else {
        return false;
    };
    kept.as_bytes().starts_with(front)
        && matches!(verdict(alloc, kept), Some(Verdict::Legal { .. }))
}

/// Whether the bytes are left as they are, for this reason.
fn refuses(came: &Told, fault: StoreFault) -> bool {
    came.fault == Some(fault) && came.handed == 0 && came.aside.is_none()
}

/// So many bytes from the front, or all where there are fewer.
fn front_of(bytes: &[u8], count: usize) -> &[u8] {
    if count <= bytes.len() {
        &bytes[..count]
    } else {
        bytes
    }
}

/// The first bytes but so many.
fn without(bytes: &[u8], count: usize) -> &[u8] {
    front_of(bytes, bytes.len().saturating_sub(count))
}

/// A hub that ends the sessions of another number of idle milliseconds.
fn other_config() -> HubConfig
    ensures { IsValid result }
{
    HubConfig {
        idle_ms: 600_000,
        ..HubConfig::default()
    }
}

/// Whether the hub of these bytes lists a node of the name under this number, keeps a journal that begins so, and put nothing aside.
fn goes_on<R: Wait>(
    rt: &R,
    alloc: Global,
    found: &[u8],
    node: Option<NodeNo>,
    front: &[u8],
) -> bool {
    match came(rt, alloc, found, HubConfig::default(), &[]) {
        Some(came) => { came.node == node && came.aside.is_none() && keeps(alloc, came, front) }
        None => false,
    }
}

/// How many bytes of the journal there are where a hub begins anew.
const SHORT: &[usize] = &[0, 1, 56];

/// How many bytes are cut off, and how many bytes fewer its hub goes on with: none of the last entry is cut off, one byte, all but one,
/// and all of it.
const CUTS: &[(usize, usize)] = &[(0, 0), (1, LAST_BYTES), (25, LAST_BYTES), (26, LAST_BYTES)];

fn begin_anew<R: Wait>(rt: &R, alloc: Global, whole: &[u8], counts: &[usize]) -> bool {
    for count in counts {
        let head = front_of(whole, HEAD_BYTES);
        if !goes_on(rt, alloc, front_of(whole, *count), Some(1), head) {
            return false;
        }
    }
    true
}

/// The node has its name still.
fn go_on<R: Wait>(rt: &R, alloc: Global, whole: &[u8], cuts: &[(usize, usize)]) -> bool {
    for (cut, last) in cuts {
        if !goes_on(rt, alloc, without(whole, *cut), None, without(whole, *last)) {
            return false;
        }
    }
    true
}

fn cuts_go<R: Wait>(rt: &R, alloc: Global) -> Option<bool> {
    let whole = journal(rt, alloc, Before::Session)?;
    Some(begin_anew(rt, alloc, whole.as_bytes(), SHORT) && go_on(rt, alloc, whole.as_bytes(), CUTS))
}

#[test]
fn a_hub_goes_on_behind_the_last_whole_entry(rt: HostRuntime) {
    assert!(rt; cuts_go(&rt, rt.alloc()) == Some(true));
}

/// Whether the bytes are left as they are, for this reason.
fn is_left<R: Wait>(
    rt: &R,
    alloc: Global,
    bytes: &[u8],
    config: HubConfig,
    fault: StoreFault,
) -> bool
    requires { IsValid config }
{
    match came(rt, alloc, bytes, config, &[]) {
        Some(came) => refuses(&came, fault),
        None => false,
    }
}

/// Whether the bytes with these behind them get this verdict.
fn is_found<R: Wait>(
    rt: &R,
    alloc: Global,
    bytes: &[u8],
    more: &[u8],
    verdict: Verdict,
) -> Option<bool> {
    let mut all = Vec::from_slice(alloc, bytes).ok()?;
    all.extend_from_slice(more).ok()?;
    let fault = StoreFault::Verdict(verdict);
    Some(is_left(rt, alloc, all.as_slice(), HubConfig::default(), fault))
}

/// No journal; the last entry twice; bytes that are no entry; and a journal under another option.
fn are_left<R: Wait>(rt: &R, alloc: Global, whole: &[u8]) -> Option<bool> {
    let length = whole.len();
    let last = whole.get(length.saturating_sub(LAST_BYTES)..)?;
    let option = StoreFault::Option(HubOption::SessionTimeout);
    Some(
        is_found(rt, alloc, b"GRIDJ002", b"", Verdict::NotJournal)?
            && is_found(rt, alloc, whole, last, Verdict::Illegal { entry: 6 })?
            && is_found(
                rt,
                alloc,
                whole,
                &[255; 9],
                Verdict::Bad { at: length as u64 },
            )?
            && is_left(rt, alloc, whole, other_config(), option),
    )
}

fn others_are_left<R: Wait>(rt: &R, alloc: Global) -> Option<bool> {
    let whole = journal(rt, alloc, Before::Session)?;
    are_left(rt, alloc, whole.as_bytes())
}

#[test]
fn what_is_no_journal_of_this_hub_is_left(rt: HostRuntime) {
    assert!(rt; others_are_left(&rt, rt.alloc()) == Some(true));
}

/// Node 1 was removed.
fn is_put_aside<R: Wait>(rt: &R, alloc: Global) -> Option<bool> {
    let whole = journal(rt, alloc, Before::Removed)?;
    let came = came(rt, alloc, whole.as_bytes(), other_config(), &[])?;
    let aside = match &came.aside {
        Some(aside) => aside.as_bytes() == whole.as_bytes(),
        None => false,
    };
    Some(aside && came.node == Some(2))
}

#[test]
fn a_journal_in_which_nothing_goes_on_is_put_aside(rt: HostRuntime) {
    assert!(rt; is_put_aside(&rt, rt.alloc()) == Some(true));
}

/// Whether the session is asked to end.
fn is_asked<R: Wait>(rt: &R, alloc: Global, before: Before, session: &[u8]) -> Option<bool> {
    let whole = journal(rt, alloc, before)?;
    let came = came(rt, alloc, whole.as_bytes(), HubConfig::default(), &[])?;
    Some(came.asked == SessionId::from_bytes(session))
}

#[test]
fn a_session_of_a_closing_slot_is_asked_to_end(rt: HostRuntime) {
    assert!(rt; is_asked(&rt, rt.alloc(), Before::Session, b"a") == Some(true));
    assert!(rt; is_asked(&rt, rt.alloc(), Before::LeftOver, b"left") == Some(true));
}

/// Whether each call of the store fails in turn, of as many as there are: pieces of 64 bytes, the end of them, and what hands them over.
fn fail_in_turn<R: Wait>(rt: &R, alloc: Global, bytes: &[u8]) -> bool {
    let calls = bytes.len().div_ceil(64).saturating_add(2) as u64;
    for number in 0..calls {
        match came(rt, alloc, bytes, HubConfig::default(), &[number]) {
            Some(came) if came.fault == Some(StoreFault::Failed) => {}
            _ => return false,
        }
    }
    match came(rt, alloc, bytes, HubConfig::default(), &[calls]) {
        Some(came) => came.fault.is_none(),
        None => false,
    }
}

fn all_fail<R: Wait>(rt: &R, alloc: Global) -> Option<bool> {
    let session = journal(rt, alloc, Before::Session)?;
    let removed = journal(rt, alloc, Before::Removed)?;
    Some(
        fail_in_turn(rt, alloc, b"")
            && fail_in_turn(rt, alloc, session.as_bytes())
            && fail_in_turn(rt, alloc, removed.as_bytes()),
    )
}

#[test]
fn each_call_of_a_store_fails_in_turn(rt: HostRuntime) {
    assert!(rt; all_fail(&rt, rt.alloc()) == Some(true));
}
