//! Answers in words.
use crate::answers::{Answer, Closed, Fault, Held};
use grid_types::{NodeAddress, Outcome, View};
use std::alloc::{AllocError, Global};

fn place(address: &NodeAddress) -> &str {
    match std::str::from_utf8(address.as_bytes()) {
        Ok(text) => text,
        Err(_) => "",
    }
}

fn held_told(alloc: Global, word: &str, held: &Held) -> Result<String, AllocError> {
    let (request, node, index) = (held.request, held.slot.node, held.slot.index);
    format!(in alloc; "{word} {request} on {node}.{index}")
}

fn closed_told(alloc: Global, word: &str, closed: &Closed) -> Result<String, AllocError> {
    let (node, index) = (closed.slot.node, closed.slot.index);
    let place = place(&closed.address);
    let end = if closed.quit {
        "to quit"
    } else {
        "not to quit"
    };
    format!(in alloc; "{word} {node}.{index} at {place} {end}")
}

fn outcome_told(alloc: Global, outcome: &Outcome) -> Result<String, AllocError> {
    match outcome {
        Outcome::Created { binding, .. } => format!(in alloc; "created {binding}"),
        Outcome::TimedOut { deadline } => format!(in alloc; "timed out {}", deadline.0),
        Outcome::StartFailed(why) => format!(in alloc; "start failed {why:?}"),
        Outcome::Cleared => String::from_str(alloc, "cleared"),
    }
}

/// An answer that is a word.
fn word(answer: &Answer) -> &'static str {
    match answer {
        Answer::NumbersSpent => "numbers spent",
        Answer::Beaten => "beaten",
        Answer::Draining => "draining",
        Answer::Removed => "removed",
        Answer::NoNode => "no node",
        Answer::Unsupported => "unsupported",
        Answer::NotYet => "not yet",
        Answer::Withdrawn => "withdrawn",
        Answer::Nothing => "nothing",
        Answer::Again => "again",
        Answer::Refused => "refused",
        Answer::FailedLate => "failed late",
        Answer::Touched => "touched",
        Answer::NoSession => "no session",
        Answer::Freed => "freed",
        _ => "",
    }
}

fn token_told(alloc: Global, answer: &Answer) -> Result<String, AllocError> {
    match answer {
        Answer::Yours(held) => held_told(alloc, "yours", held),
        Answer::Assigned(held) => held_told(alloc, "assigned", held),
        Answer::Late(closed) => closed_told(alloc, "late", closed),
        Answer::NodeGone(closed) => closed_told(alloc, "node gone", closed),
        Answer::Duplicate(closed) => closed_told(alloc, "duplicate", closed),
        Answer::Mismatch(closed) => closed_told(alloc, "mismatch", closed),
        Answer::Ended(closed) => closed_told(alloc, "ended", closed),
        Answer::Expired(closed) => closed_told(alloc, "expired", closed),
        _ => String::from_str(alloc, word(answer)),
    }
}

fn numbers_told(alloc: Global, answer: &Answer) -> Result<String, AllocError> {
    match answer {
        Answer::Registered(node) => format!(in alloc; "registered {node}"),
        Answer::NameTaken(node) => format!(in alloc; "name taken {node}"),
        Answer::NodesFull { listed } => format!(in alloc; "nodes full {listed}"),
        Answer::Queued { request, .. } => format!(in alloc; "queued {request}"),
        Answer::QueueFull { count, bytes } => format!(in alloc; "queue full {count} {bytes}"),
        Answer::Bound(request) => format!(in alloc; "bound {request}"),
        Answer::Cleared(count) => format!(in alloc; "cleared {count}"),
        Answer::Settled(outcome) => outcome_told(alloc, outcome),
        _ => token_told(alloc, answer),
    }
}

/// Whether a session could start, each node with its standing, and how many requests wait.
fn viewed_told(alloc: Global, view: &View) -> Result<String, AllocError> {
    let mut text = format!(in alloc; "ready {}", view.ready)?;
    for node in view.nodes.items() {
        let shown = format!(in alloc; " {} {:?}", node.node, node.standing)?;
        text.push_str(shown.as_str())?;
    }
    let waiting = format!(in alloc; " waiting {}", view.waiting.items().len())?;
    text.push_str(waiting.as_str())?;
    Ok(text)
}

/// The answer in words, as "bound 1" or "assigned 3 on 2.0".
pub fn told(alloc: Global, answer: &Answer) -> Result<String, Fault> {
    let text = match answer {
        Answer::At {
            slot,
            address,
            binding,
        } => {
            let place = place(address);
            format!(in alloc; "{binding} on {}.{} at {place}", slot.node, slot.index)
        }
        Answer::Swept {
            lapsed,
            suspected,
            timed_out,
            removed,
        } => format!(in alloc; "swept {lapsed} {suspected} {timed_out} {removed}"),
        Answer::Viewed(view) => viewed_told(alloc, view),
        _ => numbers_told(alloc, answer),
    };
    text.map_err(|_| Fault::Memory)
}
