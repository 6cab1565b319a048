//! A whole connection over a keeper, whose rows make the hub again: what its client was told is there.
ghost use Rattle.std.specs.Prelude.{IfSome};
ghost use Rattle.grid_keeper.specs.Holds.{HoldsAll};
ghost use Rattle.grid_keeper.specs.Keeping.{IsOpen};
ghost use Rattle.hub_core.specs.HubView.{past};

use grid_keeper::{KeptHub, Left, settle};
use grid_outside::{MemClock, MemNodes, MemSink, MemSource, Sink, Source};
use grid_types::{Bytes, Found, HubConfig, Moment, SessionId, Text};
use kept_play::kept_run;
use row_keeper::{Keeper, MemKeeper, Planned};
use std::alloc::Global;

/// A node with one slot.
const WORDS: &[&str] = &["play", "chrome", "1"];

/// A New Session, and a request behind it.
const ASKED: &[u8] =
    b"POST /session HTTP/1.1\r\nHost: h\r\nContent-Length: 57\r\n\r\n{\"capabilities\":{\"alwaysMatch\":{\"browserName\":\"chrome\"}}}GET /status HTTP/1.1\r\nHost: h\r\n\r\n";

/// The session is created.
const CREATED: &[u8] =
    b"HTTP/1.1 200 OK\r\nContent-Type: application/json; charset=utf-8\r\nCache-Control: no-cache\r\nContent-Length: 150\r\n\r\n{\"value\":{\"sessionId\":\"00000000-0000-0001-0000-000000000001\",\"capabilities\":{\"browserName\":\"chrome\",\"browserVersion\":\"126.0\",\"platformName\":\"linux\"}}}";

/// A keep by its number from 0, and what it does; and what comes of that: the status, and whether the client is told of its session.
type Case = (u32, Planned, u8, bool);

/// The keeps of the connection are a registration, a sign of life, a request, its slot, its session and its outcome; and a sign of
/// life before the request behind it.
const CASES: &[Case] = &[
    (0, Planned::Keeps, 0, true),
    (0, Planned::FailsWithout, 8, false),
    (0, Planned::FailsWithRow, 8, false),
    (1, Planned::FailsWithout, 8, false),
    (1, Planned::FailsWithRow, 8, false),
    (2, Planned::FailsWithout, 8, false),
    (2, Planned::FailsWithRow, 8, false),
    (3, Planned::FailsWithout, 8, false),
    (3, Planned::FailsWithRow, 8, false),
    (4, Planned::FailsWithout, 8, false),
    (4, Planned::FailsWithRow, 8, false),
    (5, Planned::FailsWithout, 8, false),
    (5, Planned::FailsWithRow, 8, false),
    (6, Planned::FailsWithout, 8, true),
    (6, Planned::FailsWithRow, 8, true),
];

// Borrows the list, so that no early return drops it.
fn put_words(alloc: Global, list: &mut Vec<Text>) -> Option<()> {
    for word in WORDS {
        list.push(Text::of(alloc, word).ok()?).ok()?;
    }
    Some(())
}

/// Plans what the keep with this number does.
fn plan(plan: &mut Vec<Planned>, number: u32, planned: Planned) -> Option<()> {
    for _ in 0..number {
        plan.push(Planned::Keeps).ok()?;
    }
    plan.push(planned).ok()
}

/// Over any ends, of which a trial asks no clause.
fn run_over<S: Source, O: Sink, K: Keeper>(
    alloc: Global,
    words: &[Text],
    input: &mut S,
    output: &mut O,
    keeper: K,
) -> (u8, K) {
    kept_run(alloc, words, input, output, keeper)
}

/// Plays what was asked over the keeper: the status, whether the client was told of its session, and the keeper.
fn played(alloc: Global, words: &[Text], asked: Bytes, keeper: MemKeeper) -> (u8, bool, MemKeeper) {
    let mut input = MemSource::new(asked, 1_000, Vec::new(alloc));
    let mut output = MemSink::new(alloc, 1_000, Vec::new(alloc));
    let (status, keeper) = run_over(alloc, words, &mut input, &mut output, keeper);
    (status, output.taken().starts_with(CREATED), keeper)
}

/// Whether the session is live, and bound by the first request.
fn is_bound<K: Keeper>(hub: &KeptHub<K>) -> bool
    requires { IsOpen K.disk hub.now }
{
    let Some(session) = SessionId::from_bytes(b"00000000-0000-0001-0000-000000000001") else {
        return false;
    };
    match hub.lookup(&session) {
        Found::At { binding, .. } => binding == 1,
        Found::NoSession => false,
    }
}

/// Whether a session that the client was told of is bound, and the tokens that are open can be spent.
fn is_whole<K: Keeper>(alloc: Global, hub: &mut KeptHub<K>, left: Left, told: bool) -> bool
    requires open { IsOpen K.disk hub.old }
    requires left { HoldsAll (past hub.old.hub) left }
{
    let due = is_bound(hub) || !told;
    let mut nodes = MemNodes::new(alloc, Vec::new(alloc));
    let mut clock = MemClock::new(Moment(10));
    let settled = settle(alloc, hub, left, &mut nodes, &mut clock).is_ok();
    due && settled
}

/// A hub over the keeper's rows.
fn opened<K: Keeper + Drop>(alloc: Global, keeper: K) -> Option<(KeptHub<K>, Left)>
    ensures open { IfSome result (λ made. IsOpen K.disk made.0) }
    ensures left { IfSome result (λ made. HoldsAll (past made.0.hub) made.1) }
{
    match KeptHub::open(alloc, HubConfig::default(), keeper) {
        Ok(made) => Some(made),
        Err(_) => None,
    }
}

/// Whether a hub is made again of the rows, where a session that the client was told of is found.
fn is_found(alloc: Global, keeper: MemKeeper, told: bool) -> bool {
    match opened(alloc, keeper) {
        Some((hub, left)) => {
            let mut hub = hub;
            is_whole(alloc, &mut hub, left, told)
        }
        None => false,
    }
}

fn is_so(alloc: Global, words: &[Text], asked: Bytes, keeper: MemKeeper, case: &Case) -> bool {
    let (status, told, kept) = played(alloc, words, asked, keeper);
    status == case.2 && told == case.3 && is_found(alloc, kept, told)
}

fn comes_back(alloc: Global, words: &[Text], case: &Case) -> Option<bool> {
    let mut planned = Vec::new(alloc);
    plan(&mut planned, case.0, case.1)?;
    let keeper = MemKeeper::new(alloc, planned);
    match Bytes::of(alloc, ASKED) {
        Ok(asked) => Some(is_so(alloc, words, asked, keeper, case)),
        Err(_) => None,
    }
}

fn all_come_back(alloc: Global, words: &mut Vec<Text>) -> bool {
    if put_words(alloc, words).is_none() {
        return false;
    }
    for case in CASES {
        if comes_back(alloc, words.as_slice(), case) != Some(true) {
            return false;
        }
    }
    true
}

/// A session that the client was told of is found again, whichever keep fails.
#[test]
fn a_session_that_was_told_is_found_again(rt: HostRuntime) {
    let alloc = rt.alloc();
    assert!(rt; all_come_back(alloc, &mut Vec::new(alloc)));
}
