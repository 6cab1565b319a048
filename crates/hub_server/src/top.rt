//! The whole of the hub's program, over any door.
ghost use Rattle.std.specs.Prelude.{◌≡◌, ◌≤◌, ◌⊎◌, Some, IfErr, IfOk, IfSome, IsSome, vec_len};
ghost use Rattle.grid_types.specs.Config.{IsValid};
ghost use Rattle.grid_outside.specs.Counts.{Rose};
ghost use Rattle.hub_cell.specs.Passes.{IsOf, spares_of};
ghost use Rattle.server_words.specs.HubOptions.{AreWithin, hub_said};
ghost use Rattle.server_words.specs.Hosts.{IsHostText, TellsHost, host_said};
ghost use Rattle.server_words.specs.Journals.{TellsJournal};
ghost use Rattle.server_words.specs.declared.options.WordsFault.TheVariants as faults;
ghost use Rattle.grid_outside.specs.Told.{NoneFell};
ghost use Rattle.hub_server.specs.Statuses.{HasRun, HasRunOr, HasServed, MayEnd};

use crate::begins::{Begins, NewHub};
use crate::beside::{House, serve_beside_house};
use crate::handling::{DOOR_FAILED, NO_MEMORY};
use crate::looping::Post;
use crate::passes::{bare_passes, split_off};
use grid_outside::Door;
use grid_types::Text;
use hub_cell::{Pass, SharedHub};
use hub_workers::start_limit;
use server_words::{HubWords, JournalWords, WordsFault, hub_host, hub_journal, hub_words};
use std::alloc::Global;
use std::net::IpAddr;
use std::sync::Wait;
use std::thread::{Threads, available_parallelism};

/// The words don't fit.
const REFUSED: u8 = 2;

/// The most loops. More gain nothing, since all of them take turns at the one hub.
const MOST_LOOPS: u32 = 8;

/// How many tickers there are. One that asks a hung node to end a session waits for it alone.
const TICKERS: usize = 4;

/// So many clocks.
fn clocks_of<D: Door>(alloc: Global, door: &mut D, count: usize) -> Result<Vec<D::C>, u8>
    ensures later { NoneFell (D.view door.old) (D.view door.new) }
    ensures failed { IfErr result (HasRun (D.view door.old) (D.view door.new)) }
{
    let Ok(mut clocks) = Vec::with_capacity(alloc, count) else {
        return Err(NO_MEMORY);
    };
    for _ in 0..count {
        clocks.push_reserved(door.clock());
    }
    Ok(clocks)
}

/// What so many workers, and the tickers, work with. The error is the program's status.
fn house_of<D: Door>(
    alloc: Global,
    door: &mut D,
    workers: usize,
    start_ms: u64,
) -> Result<House<D::G, D::C>, u8>
    ensures later { NoneFell (D.view door.old) (D.view door.new) }
    ensures failed { IfErr result (HasRun (D.view door.old) (D.view door.new)) }
{
    let workers = clocks_of(alloc, door, workers)?;
    let tickers = clocks_of(alloc, door, TICKERS)?;
    match door.gate() {
        Ok(gate) => Ok(House {
            gate,
            workers,
            tickers,
            start_ms,
        }),
        Err(_) => Err(DOOR_FAILED),
    }
}

/// How many threads may run at once.
fn processors<R: Threads>(rt: &R) -> u32 {
    match available_parallelism(rt) {
        Ok(count) => u32::try_from(count.get()).unwrap_or(MOST_LOOPS),
        Err(_) => 1,
    }
}

/// How many loops drive the connections: not more than there are processors, or connections at once.
fn loops_for(handlers: u32, connections: u32, processors: u32) -> u32
    requires { (1 ≤ handlers) × (1 ≤ connections) }
    ensures { (1 ≤ result) × (result ≤ handlers) × (result ≤ 8) }
{
    let wanted = handlers.min(connections).min(MOST_LOOPS);
    wanted.min(processors.max(1))
}

/// What one loop works with.
fn post_of<D: Door>(door: &mut D, places: usize, timeout_ms: u64) -> Result<Post<D::G, D::C>, u8>
    ensures later { NoneFell (D.view door.old) (D.view door.new) }
    ensures failed { IfErr result (λ status. (status ≡ 3)
        × Rose (D.view door.old).faults (D.view door.new).faults) }
{
    let Ok(gate) = door.gate() else {
        return Err(DOOR_FAILED);
    };
    let clock = door.clock();
    Ok(Post {
        gate,
        clock,
        places,
        timeout_ms,
    })
}

/// What so many loops work with, which drive so many connections in all, whose requests wait so long. The error is the program's
/// status.
fn posts_of<D: Door>(
    alloc: Global,
    door: &mut D,
    loops: usize,
    connections: usize,
    timeout_ms: u64,
) -> Result<Vec<Post<D::G, D::C>>, u8>
    requires { (1 ≤ loops) × (loops ≤ 8) × (connections ≤ 20_000) }
    ensures count { IfOk result (λ posts. vec_len posts ≡ loops) }
    ensures later { NoneFell (D.view door.old) (D.view door.new) }
    ensures failed { IfErr result (HasRun (D.view door.old) (D.view door.new)) }
{
    let Ok(mut posts) = Vec::with_capacity(alloc, loops) else {
        return Err(NO_MEMORY);
    };
    for index in 0..loops {
        let places = (connections + index) / loops;
        posts.push_reserved(post_of(door, places, timeout_ms)?);
    }
    Ok(posts)
}

/// Splits a pass off for each loop, worker and ticker, and serves the links.
fn serve_with_passes<R: Threads + Wait + Sync, D: Door>(
    rt: &R,
    alloc: Global,
    hub: &SharedHub,
    mut first: Pass,
    house: House<D::G, D::C>,
    posts: Vec<Post<D::G, D::C>>,
    door: &mut D,
) -> u8
    requires own { IsOf hub.now first }
    requires spares { vec_len posts ≤ spares_of first }
    ensures { HasRun (D.view door.old) (D.view door.new) result }
{
    let loops = posts.len();
    let Ok(mut passes) = Vec::with_capacity(alloc, loops) else {
        return NO_MEMORY;
    };
    if split_off(rt, hub, &mut first, &mut passes, loops).is_err() {
        return NO_MEMORY;
    }
    let hands = house.workers.len().saturating_add(house.tickers.len());
    let mut house_passes = Vec::new(alloc);
    bare_passes(rt, hub, &mut first, &mut house_passes, hands);
    serve_beside_house(rt, alloc, hub, house_passes, house, passes, posts, door)
}

/// Makes the hub, serves the links by loops, and ends the hub.
fn serve_with_house<R: Threads + Wait + Sync, D: Door, B: Begins>(
    rt: &R,
    alloc: Global,
    words: &HubWords,
    house: House<D::G, D::C>,
    journal: &JournalWords,
    door: &mut D,
    beginning: &mut B,
) -> u8
    requires within { AreWithin words.now × IsValid words.now.config }
    ensures { HasRunOr B.may (D.view door.old) (D.view door.new) result }
{
    let loops = loops_for(words.handlers, words.connections, processors(rt));
    let connections = words.connections as usize;
    let timeout_ms = words.config.timeout_ms;
    let posts = match posts_of(alloc, door, loops as usize, connections, timeout_ms) {
        Ok(posts) => posts,
        Err(status) => return status,
    };
    let (hub, first) = match beginning.begin(rt, alloc, words.config, journal, loops + 1) {
        Ok(begun) => begun,
        Err(why) => return why.status(),
    };
    let status = serve_with_passes(rt, alloc, &hub, first, house, posts, door);
    hub.close(rt);
    status
}

/// Takes what workers and tickers work with, and serves the links.
fn serve_hub<R: Threads + Wait + Sync, D: Door, B: Begins>(
    rt: &R,
    alloc: Global,
    words: &HubWords,
    journal: &JournalWords,
    door: &mut D,
    beginning: &mut B,
) -> u8
    requires within { AreWithin words.now × IsValid words.now.config }
    ensures { HasRunOr B.may (D.view door.old) (D.view door.new) result }
{
    // A worker doesn't know how long a request has waited.
    let start_ms = start_limit(words.config.timeout_ms);
    match house_of(alloc, door, words.workers as usize, start_ms) {
        Ok(house) => serve_with_house(rt, alloc, words, house, journal, door, beginning),
        Err(status) => status,
    }
}

/// Binds the door where the words say, and serves the links.
fn serve_bound<R: Threads + Wait + Sync, D: Door, B: Begins>(
    rt: &R,
    alloc: Global,
    words: &HubWords,
    host: IpAddr,
    journal: &JournalWords,
    door: &mut D,
    beginning: &mut B,
) -> u8
    requires within { AreWithin words.now × IsValid words.now.config }
    ensures { HasServed B.may host words.now.port (D.view door.old) (D.view door.new) result }
{
    door.listen_at(host);
    match door.bind(words.port) {
        Ok(()) => serve_hub(rt, alloc, words, journal, door, beginning),
        Err(_) => DOOR_FAILED,
    }
}

/// The status of words that were not taken.
fn refusal_status(fault: WordsFault) -> u8
    ensures refused { result ≡ 2 → fault ≡ faults.Refused }
    ensures memory { (result ≡ 2) ⊎ (result ≡ 5) }
{
    match fault {
        WordsFault::Refused => REFUSED,
        WordsFault::Memory => NO_MEMORY,
    }
}

/// The program of the hub: its words are those of the command line without the program's name. It binds
/// the door and serves the links that come in by loops, threads that each drive many of them, at most as many as the words say,
/// beside workers, which start sessions, and a ticker, which lets go what is over by its time. A link that finds all places taken
/// waits. It ends once the door is closed, or fails, and all links have ended. It need not return.
///
/// 0: the door was closed. 2: the words don't fit. 3: the door could not be bound, or failed. 5: out
/// of memory. 6: they ask for a journal, which this hub does not keep.
pub fn hub_main<R: Threads + Wait + Sync, D: Door>(
    rt: &R,
    alloc: Global,
    words: &[Text],
    door: &mut D,
) -> u8
    ensures closed { result ≡ 0 → Rose (D.view door.old).ends (D.view door.new).ends }
    ensures misfit { result ≡ 2 → ¬ (TellsHost words.now × TellsJournal words.now) }
    ensures refuses { ¬ (TellsHost words.now × TellsJournal words.now) → (result ≡ 2) ⊎ (result ≡ 5) }
    ensures failed { result ≡ 3 → Rose (D.view door.old).faults (D.view door.new).faults }
    ensures later { ((D.view door.old).ends ≤ (D.view door.new).ends)
        × ((D.view door.old).faults ≤ (D.view door.new).faults) }
    // It listens where the words say, and nowhere else.
    ensures listens { result ≡ 0 → (D.view door.new).bound ≡ Some (hub_said words.now).port }
    ensures bound { ((D.view door.new).bound ≡ (D.view door.old).bound)
        ⊎ ((D.view door.new).bound ≡ Some (hub_said words.now).port) }
    ensures host { ((result ≡ 2) ⊎ (result ≡ 5)) × ((D.view door.new).host ≡ (D.view door.old).host)
        ⊎ IfSome (D.view door.new).host (IsHostText (host_said words.now))
        × IsSome (D.view door.new).host }
    ensures statuses { (result ≡ 0) ⊎ ((result ≡ 2) ⊎ ((result ≡ 3) ⊎ ((result ≡ 5) ⊎ (result ≡ 6)))) }
{
    hub_main_by(rt, alloc, words, door, &mut NewHub)
}

/// The same over a hub that `beginning` makes once the door is bound, for which clients wait meanwhile.
///
/// 6: what keeps its journal failed. 7: another hub keeps the same journal. 11: what is kept is no journal from which a hub can
/// go on. Where there is no hub nothing is served.
pub fn hub_main_by<R: Threads + Wait + Sync, D: Door, B: Begins>(
    rt: &R,
    alloc: Global,
    words: &[Text],
    door: &mut D,
    beginning: &mut B,
) -> u8
    ensures closed { result ≡ 0 → Rose (D.view door.old).ends (D.view door.new).ends }
    ensures misfit { result ≡ 2 → ¬ (TellsHost words.now × TellsJournal words.now) }
    ensures refuses { ¬ (TellsHost words.now × TellsJournal words.now) → (result ≡ 2) ⊎ (result ≡ 5) }
    ensures failed { result ≡ 3 → Rose (D.view door.old).faults (D.view door.new).faults }
    ensures later { ((D.view door.old).ends ≤ (D.view door.new).ends)
        × ((D.view door.old).faults ≤ (D.view door.new).faults) }
    // It listens where the words say, and nowhere else.
    ensures listens { result ≡ 0 → (D.view door.new).bound ≡ Some (hub_said words.now).port }
    ensures bound { ((D.view door.new).bound ≡ (D.view door.old).bound)
        ⊎ ((D.view door.new).bound ≡ Some (hub_said words.now).port) }
    ensures host { ((result ≡ 2) ⊎ (result ≡ 5)) × ((D.view door.new).host ≡ (D.view door.old).host)
        ⊎ IfSome (D.view door.new).host (IsHostText (host_said words.now))
        × IsSome (D.view door.new).host }
    ensures statuses { (result ≡ 2) ⊎ MayEnd B.may result }
{
    let told = match hub_words(alloc, words) {
        Ok(told) => told,
        Err(fault) => return refusal_status(fault),
    };
    let journal = match hub_journal(alloc, words) {
        Ok(journal) => journal,
        Err(fault) => return refusal_status(fault),
    };
    match hub_host(alloc, words) {
        Ok(host) => serve_bound(rt, alloc, &told, host, &journal, door, beginning),
        Err(fault) => refusal_status(fault),
    }
}
