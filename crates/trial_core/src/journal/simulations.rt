//! Summaries of three numbers, foretold by a model apart from this program, and what is known of a farm beside the summary of the
//! simulation whose journal told it.
use grid_farm::{KnownFarm, read_farm};
use grid_journal::{write_entry, write_head};
use grid_outside::{MemSource, Source};
use grid_simulate::{Simulated, Summary, simulate, simulated_config, summary_text};
use grid_types::{Bytes, Entry};
use std::alloc::Global;

/// A number and its summary. Of each, the queued requests are those that were created, timed out, refused or cleared,
/// and those that wait: 690 = 178 + 288 + 1 + 205 + 18, 654 = 190 + 336 + 2 + 109 + 17, 658 = 145 + 373 + 2 + 122 + 16.
const ROWS: &[(u64, &str)] = &[
    (
        7,
        "simulate 7\nqueued 690\ncreated 178\ntimed out 288\nrefused 1\ncleared 205\nwaiting 18\nretried 39\nended 160\nlapsed 0\nlive 18\n",
    ),
    // The same summary at each run.
    (
        7,
        "simulate 7\nqueued 690\ncreated 178\ntimed out 288\nrefused 1\ncleared 205\nwaiting 18\nretried 39\nended 160\nlapsed 0\nlive 18\n",
    ),
    (
        0,
        "simulate 0\nqueued 654\ncreated 190\ntimed out 336\nrefused 2\ncleared 109\nwaiting 17\nretried 38\nended 169\nlapsed 0\nlive 21\n",
    ),
    (
        18_446_744_073_709_551_615,
        "simulate 18446744073709551615\nqueued 658\ncreated 145\ntimed out 373\nrefused 2\ncleared 122\nwaiting 16\nretried 127\nended 127\nlapsed 0\nlive 18\n",
    ),
];

/// The entries up to the summary.
fn front_of(entries: &[Entry], count: u64) -> &[Entry] {
    let count = count as usize;
    if count <= entries.len() {
        &entries[..count]
    } else {
        entries
    }
}

/// The journal of a simulation.
fn journal(alloc: Global, entries: &[Entry]) -> Option<Bytes> {
    let mut bytes = Vec::new(alloc);
    put_all(alloc, &mut bytes, entries)?;
    Some(Bytes::from_vec(bytes))
}

// Borrows the bytes, so that no early return drops them.
fn put_all(alloc: Global, bytes: &mut Vec<u8>, entries: &[Entry]) -> Option<()> {
    let head = write_head(alloc, &simulated_config()).ok()?;
    let put = bytes.extend_from_slice(head.as_bytes()).ok();
    drop(head);
    put?;
    for entry in entries {
        let more = write_entry(alloc, entry).ok()?;
        let put = bytes.extend_from_slice(more.as_bytes()).ok();
        drop(more);
        put?;
    }
    Some(())
}

/// A summary of what is known of a farm.
fn summary_of(farm: &KnownFarm) -> Summary {
    let requests = &farm.counts.requests;
    let sessions = &farm.counts.sessions;
    Summary {
        queued: requests.queued,
        created: sessions.created,
        timed_out: requests.timed_out,
        refused: requests.refused,
        cleared: requests.cleared,
        waiting: farm.waiting(),
        retried: sessions.failed.saturating_sub(requests.refused),
        ended: sessions.quit.saturating_add(sessions.idle),
        lapsed: farm.counts.nodes.lapsed,
        live: farm.past.sessions().len() as u64,
    }
}

/// What is known of the farm, of which a trial asks no clause.
fn summed_up<S: Source>(alloc: Global, input: &mut S) -> Option<Summary> {
    match read_farm(alloc, input) {
        Ok(read) => {
            let summary = summary_of(&read.farm);
            drop(read);
            Some(summary)
        }
        Err(_) => None,
    }
}

// Let go by a call: the check of a value that ends by itself writes out all its fields.
/// What the journal of the simulation tells.
fn told(alloc: Global, simulated: &Simulated) -> Option<Summary> {
    let entries = front_of(simulated.hub.journal(), simulated.at);
    let journal = journal(alloc, entries)?;
    let mut input = MemSource::new(journal, 4_096, Vec::new(alloc));
    let summary = summed_up(alloc, &mut input);
    drop(input);
    summary
}

/// Whether the simulation has this summary, and its journal tells the same.
fn is_so(alloc: Global, simulated: &Simulated, number: u64, expected: &str) -> Option<bool> {
    let summary = told(alloc, simulated)?;
    let text = summary_text(alloc, number, &simulated.summary).ok()?;
    let is_so = text.as_str() == expected && summary == simulated.summary;
    drop(text);
    Some(is_so)
}

fn are_so(alloc: Global, rows: &[(u64, &str)]) -> bool {
    for (number, expected) in rows {
        let so = match simulate(alloc, *number) {
            Ok(simulated) => {
                let is_so = is_so(alloc, &simulated, *number, expected);
                drop(simulated);
                is_so
            }
            Err(_) => None,
        };
        if so != Some(true) {
            return false;
        }
    }
    true
}

#[test]
fn numbers_give_their_summaries(rt: HostRuntime) {
    assert!(rt; are_so(rt.alloc(), ROWS));
}
