//! A node in memory that registers at a hub and serves the sessions that the hub starts on it.
#![tactic(auto)]

use grid_console::{Asked, NoWords, ToldBind, ToldHub, words};
use grid_node::node_main;
use grid_outside::Door;
use grid_sockets::TcpDoor;
use grid_types::Text;
use server_words::{NODE_USAGE, node_reason};
use std::alloc::Global;
use std::process::ExitCode;
use std::sync::Wait;
use std::thread::Threads;

/// The words don't fit.
const REFUSED: u8 = 2;

/// Out of memory.
const NO_MEMORY: u8 = 5;

/// Says why the words don't fit. The status says that they don't where this can't be written.
fn explain(rt: HostRuntime, words: &[Text]) {
    if let Some(reason) = node_reason(rt.alloc(), words) {
        let _ = eprintln!(rt; "grid_node: {reason}");
    }
}

// Over any door: the check of a call that has its clauses written out for this one takes many times as long.
fn served<R: Threads + Wait + Sync, D: Door>(
    rt: &R,
    alloc: Global,
    words: &[Text],
    door: &mut D,
) -> u8 {
    node_main(rt, alloc, words, door)
}

fn main(rt: HostRuntime) -> ExitCode {
    let status = match words(&rt) {
        Ok(words) => match Asked::of(words.as_slice()) {
            Some(asked) => {
                asked.tell(&rt, "grid_node", NODE_USAGE);
                0
            }
            None => {
                let bind = ToldBind::new(rt, "grid_node", TcpDoor::new(rt, None));
                let mut door = ToldHub::new(rt, "grid_node", bind);
                let status = served(&rt, rt.alloc(), words.as_slice(), &mut door);
                if status == REFUSED {
                    explain(rt, words.as_slice());
                }
                status
            }
        },
        Err(NoWords::NotText) => REFUSED,
        Err(NoWords::Memory) => NO_MEMORY,
    };
    if status != 0 {
        let _ = eprintln!(rt; "grid_node: status {status}");
    }
    if status == REFUSED {
        let _ = eprint!(rt; "{NODE_USAGE}");
    }
    ExitCode::from(status)
}
