//! A hub's program beside the thread that tells what the hub enters.
ghost use Rattle.std.specs.Thread.{IsSync};

use crate::beginning::Beginning;
use crate::sights::{Sights, wait_a_while};
use crate::telling::{StandardError, tell_all};
use crossbeam_channel::{Receiver, Sender, TryRecvError, bounded};
use grid_journal::write_head;
use grid_log::Recall;
use grid_outside::Clock;
use grid_types::{HubConfig, NoMemory};
use journal_keeper::{Sight, Watch};
use std::alloc::Global;
use std::fs::File;
use std::sync::atomic::{AtomicBool, AtomicU64, Ordering};
use std::sync::{Arc, Wait};
use std::thread::{Threads, join};

/// Out of memory.
const NO_MEMORY: u8 = 5;

/// What a hub's program takes of what stands between it and the thread that tells.
#[derive(Drop)]
pub struct HubSide {
    /// By how much the hub's clocks are to be ahead of the machine's.
    pub(crate) ahead: Arc<AtomicU64>,
    /// Where the hub says what it begins with, once.
    pub(crate) begins: Sender<Beginning>,
    /// Where the hub tells what it keeps.
    pub(crate) watch: Watch,
    /// Where the hub's file goes, to make stay on the disk what was appended.
    pub(crate) syncs: Sender<File>,
}

impl HubSide {
    /// By how much the hub's clocks are to be ahead, for the door that makes them.
    pub fn ahead(&self) -> Result<Arc<AtomicU64>, NoMemory> {
        match self.ahead.clone() {
            Ok(ahead) => Ok(ahead),
            Err(_) => Err(NoMemory),
        }
    }
}

/// What the thread takes of it.
#[derive(Drop)]
struct TellingSide {
    begun: Receiver<Beginning>,
    coming: Receiver<Sight>,
    files: Receiver<File>,
}

/// The head of a journal of a hub that was set up so.
fn head(alloc: Global, config: &HubConfig) -> Result<Vec<u8>, NoMemory> {
    let head = write_head(alloc, config)?;
    let mut bytes = Vec::new(alloc);
    match bytes.extend_from_slice(head.as_bytes()) {
        Ok(()) => Ok(bytes),
        Err(_) => Err(NoMemory),
    }
}

/// Both sides.
fn sides(alloc: Global) -> Result<(HubSide, TellingSide), NoMemory> {
    let (watch, coming) = Watch::new(alloc)?;
    let Ok((begins, begun)) = bounded(alloc, 1) else {
        return Err(NoMemory);
    };
    let Ok((syncs, files)) = bounded(alloc, 1) else {
        return Err(NoMemory);
    };
    let Ok(ahead) = Arc::new(alloc, AtomicU64::new(0)) else {
        return Err(NoMemory);
    };
    let hub_side = HubSide {
        ahead,
        begins,
        watch,
        syncs,
    };
    let telling = TellingSide {
        begun,
        coming,
        files,
    };
    Ok((hub_side, telling))
}

/// What the hub begins with, once it says so. None: it is done before.
fn beginning<R: Wait>(rt: &R, begun: &Receiver<Beginning>, done: &AtomicBool) -> Option<Beginning> {
    for _ in rt.forever() {
        match begun.try_recv(rt) {
            Ok(beginning) => return Some(beginning),
            Err(TryRecvError::Empty) if !done.load(Ordering::SeqCst) => wait_a_while(rt),
            Err(_) => return None,
        }
    }
    None
}

/// Tells what comes until the hub is done.
fn tell_side<R: Wait + Eprint, C: Clock + Drop>(
    rt: &R,
    alloc: Global,
    program: &'static str,
    side: TellingSide,
    mut clock: C,
    done: &AtomicBool,
) {
    let TellingSide {
        begun,
        coming,
        files,
    } = side;
    let Some(Beginning { config, before }) = beginning(rt, &begun, done) else {
        return;
    };
    // Where there is no memory for a head, nothing is told.
    let head = match head(alloc, &config) {
        Ok(head) => head,
        Err(_) => Vec::new(alloc),
    };
    let past = match before {
        Some(front) => front.recalled(alloc),
        None => Recall::new(alloc),
    };
    let mut sights = Sights::new(rt, alloc, program, coming, files, done, head);
    let mut output = StandardError::new(rt);
    tell_all(alloc, past, &mut sights, &mut output, &mut clock);
}

/// Does what `serve` does beside a thread that tells on standard error what the hub enters, and answers its status; 5 where there is
/// no memory to begin.
pub fn run_told<
    R: Threads + Wait + Eprint + Sync,
    C: Clock + Send + Drop,
    F: FnOnce(HubSide) -> u8 + Send,
>(rt: &R, alloc: Global, program: &'static str, clock: C, serve: F) -> u8
    requires { F.IsAlwaysCallable serve }
{
    let Ok((hub_side, telling)) = sides(alloc) else {
        return NO_MEMORY;
    };
    let flag = AtomicBool::new(false);
    let done = &flag;
    let (status, ()) = join(
        rt,
        move || -> u8
            requires { F.IsAlwaysCallable serve }
        {
            let status = serve(hub_side);
            done.store(true, Ordering::SeqCst);
            status
        },
        move ||
            requires { IsSync R.row }
        { tell_side(rt, alloc, program, telling, clock, done) },
    );
    status
}
