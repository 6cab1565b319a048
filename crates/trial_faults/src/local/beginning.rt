//! What goes before each request: own nodes give a sign of life, the hub sweeps, and idle sessions are ended.
use crate::local::plays::{makes_entries, waiting};
use crate::tables::{
    BEATEN_STAYS, IDLE_ENDS, NONE_MATCHES, Play, SILENT_IS_SUSPECT, SILENT_LAPSES,
};
use grid_types::{HubConfig, NodeNo};
use std::alloc::Global;

// A connection, the hub's own nodes, how many milliseconds a request waits, and the entries behind the registration.
type Row = (Play, &'static [NodeNo], u64, &'static str);

const ROWS: [Row; 4] = [
    (
        IDLE_ENDS,
        &[1],
        300_000,
        "beat queue reserve bind take beat queue time-out take beat end free beat ",
    ),
    (SILENT_LAPSES, &[], 300_000, "queue time-out take lapse "),
    (
        BEATEN_STAYS,
        &[1],
        300_000,
        "beat queue time-out take beat ",
    ),
    (
        SILENT_IS_SUSPECT,
        &[],
        150_000,
        "queue time-out take suspect beat ",
    ),
];

fn all_go(alloc: Global, rows: &[Row]) -> bool {
    for (play, own, timeout_ms, entries) in rows {
        if makes_entries(alloc, play, own, waiting(*timeout_ms), Some(entries)) != Some(true) {
            return false;
        }
    }
    true
}

/// What no slot matches is refused.
fn none_matches(alloc: Global) -> Option<bool> {
    let config = HubConfig {
        reject_unsupported: true,
        ..HubConfig::default()
    };
    makes_entries(alloc, &NONE_MATCHES, &[1], config, Some("beat beat "))
}

#[test]
fn nodes_beat_and_idle_sessions_end_before_a_request(rt: HostRuntime) {
    assert!(rt; all_go(rt.alloc(), &ROWS));
    assert!(rt; none_matches(rt.alloc()) == Some(true));
}
