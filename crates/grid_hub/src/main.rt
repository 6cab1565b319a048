//! The hub of the grid over TCP.
#![tactic(auto)]

use grid_console::{Asked, NoWords, ToldBind, words};
use grid_outside::Door;
use grid_sockets::{MachineClock, TcpDoor, TcpNodes};
use grid_types::Text;
use hub_journal::{FileHub, HubSide, run_told};
use hub_server::{Begins, hub_main_by};
use server_words::{HUB_USAGE, hub_reason};
use std::alloc::Global;
use std::process::ExitCode;
use std::sync::Wait;
use std::thread::Threads;

/// What lines on standard error begin with.
const NAME: &str = "grid_hub";

/// The words don't fit.
const REFUSED: u8 = 2;

/// Out of memory.
const NO_MEMORY: u8 = 5;

/// Says why the words don't fit. The status says that they don't where this can't be written.
fn explain(rt: HostRuntime, words: &[Text]) {
    if let Some(reason) = hub_reason(rt.alloc(), words) {
        let _ = eprintln!(rt; "{NAME}: {reason}");
    }
}

// Over any door and hub: the check of a call that has its clauses written out for these takes many times as long.
fn served<R: Threads + Wait + Sync, D: Door, B: Begins>(
    rt: &R,
    alloc: Global,
    words: &[Text],
    door: &mut D,
    hub: &mut B,
) -> u8 {
    hub_main_by(rt, alloc, words, door, hub)
}

/// What a hub serves by.
#[derive(Clone, Copy)]
struct Job<'a, R> {
    rt: &'a R,
    host: HostRuntime,
    words: &'a [Text],
}

impl<R: Threads + Wait + Sync> Job<'_, R> {
    /// Serves by the words, and says why there is no hub where there is none.
    fn serve(self, side: HubSide) -> u8 {
        let host = self.host;
        let Ok(ahead) = side.ahead() else {
            return NO_MEMORY;
        };
        let door = TcpDoor::new(host, None).with_clocks_ahead(ahead);
        let mut door = ToldBind::new(host, NAME, door);
        let mut hub = FileHub::new(
            host.alloc(),
            host,
            TcpNodes::new(host),
            MachineClock::new(host),
            side,
        );
        let status = served(self.rt, host.alloc(), self.words, &mut door, &mut hub);
        if let Some(trouble) = hub.trouble() {
            let path = hub.path();
            let _ = eprintln!(host; "{NAME}: the journal {path}: {trouble}");
        }
        status
    }
}

/// Runs the hub, or tells what the words ask of the program.
fn run<R: Threads + Wait + Eprint + Sync>(rt: &R, host: HostRuntime, words: &[Text]) -> u8 {
    if let Some(asked) = Asked::of(words) {
        asked.tell(&host, NAME, HUB_USAGE);
        return 0;
    }
    let job = Job { rt, host, words };
    let clock = MachineClock::new(host);
    let status = run_told(rt, host.alloc(), NAME, clock, move |side| job.serve(side));
    if status == REFUSED {
        explain(host, words);
    }
    status
}

fn main(rt: HostRuntime) -> ExitCode {
    let status = match words(&rt) {
        Ok(words) => run(&rt, rt, words.as_slice()),
        Err(NoWords::NotText) => REFUSED,
        Err(NoWords::Memory) => NO_MEMORY,
    };
    if status != 0 {
        let _ = eprintln!(rt; "{NAME}: status {status}");
    }
    if status == REFUSED {
        let _ = eprint!(rt; "{HUB_USAGE}");
    }
    ExitCode::from(status)
}
