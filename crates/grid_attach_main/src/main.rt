//! Puts a driver that already runs behind a hub, as a node.
#![tactic(auto)]

use grid_attach::attach_main;
use grid_console::{Asked, NoWords, ToldNodes, words};
use grid_outside::{Clock, NodeLink};
use grid_sockets::{MachineClock, TcpNodes};
use grid_types::Text;
use server_words::{ATTACH_USAGE, AttachFault};
use std::alloc::Global;
use std::process::ExitCode;

/// The words don't fit.
const REFUSED: u8 = 2;

/// Out of memory.
const NO_MEMORY: u8 = 5;

/// The status of the program, with the reason on standard error. The status says the same where nothing
/// can be written.
fn status_of(rt: HostRuntime, fault: &AttachFault) -> u8 {
    let text = format!(in rt.alloc(); "{fault}").ok();
    // What `clap` says behind its first line is of its own form, and so is its help.
    let line = text
        .as_ref()
        .and_then(|text| text.lines().next())
        .unwrap_or("");
    if let Some(reason) = line.strip_prefix("error: ") {
        let _ = eprintln!(rt; "grid_attach: {reason}");
    }
    match fault {
        AttachFault::Memory => NO_MEMORY,
        _ => REFUSED,
    }
}

// Over any nodes and clock: the check of a call that has its clauses written out for these takes many times as long.
fn attached<N: NodeLink, C: Clock>(
    alloc: Global,
    words: &[Text],
    nodes: &mut N,
    clock: &mut C,
) -> Result<(), AttachFault> {
    attach_main(alloc, words, nodes, clock, u64::MAX)
}

/// Puts the driver of the words behind the hub, for as long as the program runs, or tells what they ask of the program.
fn run(rt: HostRuntime) -> u8 {
    let alloc: Global = rt.alloc();
    let words = match words(&rt) {
        Ok(words) => words,
        Err(NoWords::NotText) => return REFUSED,
        Err(NoWords::Memory) => return NO_MEMORY,
    };
    if let Some(asked) = Asked::of(words.as_slice()) {
        asked.tell(&rt, "grid_attach", ATTACH_USAGE);
        return 0;
    }
    let mut nodes = ToldNodes::new(rt, "grid_attach", TcpNodes::new(rt), None);
    let mut clock = MachineClock::new(rt);
    match attached(alloc, words.as_slice(), &mut nodes, &mut clock) {
        Ok(()) => 0,
        Err(fault) => status_of(rt, &fault),
    }
}

fn main(rt: HostRuntime) -> ExitCode {
    let status = run(rt);
    if status != 0 {
        let _ = eprintln!(rt; "grid_attach: status {status}");
    }
    if status == REFUSED {
        let _ = eprint!(rt; "{ATTACH_USAGE}");
    }
    ExitCode::from(status)
}
