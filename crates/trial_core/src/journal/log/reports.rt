//! The metrics and the page of a worked history.
use crate::journal::log::logs::{HEAD, put_all, tells};
use std::alloc::Global;

/// A session is created after 0.9 s. A minute later three requests come. A start for the second of them fails; one for the third is
/// under way on the third slot, and then another for the second on the slot before that.
const HISTORY: &[&[u8]] = &[
    HEAD,
    b"\0\0\0\0\0\0\0\x03\x01\0\0\0\x01\0\0\0\x09red \"one\"\x0e127.0.0.1:5555\0\x04\0\0\0\x02\0\0\0\x01\0\0\0\x0bbrowserName\0\0\0\0\x06chrome\0\x03\0\0\0\x01\0\0\0\x0bbrowserName\0\0\0\0\x07firefox\0\x01\0\0\0\0\0\0\0\x03\xe8",
    b"\0\0\0\0\0\0\0\x03\x06\0\0\0\0\0\0\0\x01\0\x01\0\0\0\x01\0\0\0\x0bbrowserName\0\0\0\0\x06chrome\0\0\0\0\0\x04\x9b\xb0\0\0\0\0\0\0\x07\xd0",
    b"\0\0\0\0\0\0\0\x03\x07\0\0\0\0\0\0\0\x01\0\0\0\x01\0\0\0\0\0\0\0\0\0\0\x07\xd0",
    b"\0\0\0\0\0\0\0\x03\x08\0\0\0\0\0\0\0\x01\0\0\0\x01\0\0\x03s-1\0\0\0\x02\0\0\0\x0bbrowserName\0\0\0\0\x06chrome\0\0\0\x0ebrowserVersion\0\0\0\0\x05126.0\0\0\0\0\0\0\x0bT",
    b"\0\0\0\0\0\0\0\x03\x06\0\0\0\0\0\0\0\x02\0\x01\0\0\0\x01\0\0\0\x0bbrowserName\0\0\0\0\x06chrome\0\0\0\0\0\x05\x82(\0\0\0\0\0\0\xeeH",
    b"\0\0\0\0\0\0\0\x03\x06\0\0\0\0\0\0\0\x03\0\x01\0\0\0\x01\0\0\0\x0bbrowserName\0\0\0\0\x06chrome\0\0\0\0\0\x05\x86\x10\0\0\0\0\0\0\xf20",
    b"\0\0\0\0\0\0\0\x03\x06\0\0\0\0\0\0\0\x04\0\x01\0\0\0\x01\0\0\0\x0bbrowserName\0\0\0\0\x06chrome\0\0\0\0\0\x05\x86\x10\0\0\0\0\0\0\xf20",
    b"\0\0\0\0\0\0\0\x03\x07\0\0\0\0\0\0\0\x03\0\0\0\x01\0\x01\0\0\0\0\0\0\0\0\xf20",
    b"\0\0\0\0\0\0\0\x03\x09\0\0\0\0\0\0\0\x03\0\0\0\x01\0\x01\x01\0\0\0\0\0\0\0\0\xf3\\",
    b"\0\0\0\0\0\0\0\x03\x07\0\0\0\0\0\0\0\x04\0\0\0\x01\0\x02\0\0\0\0\0\0\0\0\xf3\xc0",
    b"\0\0\0\0\0\0\0\x03\x07\0\0\0\0\0\0\0\x03\0\0\0\x01\0\x01\0\0\0\0\0\0\0\0\xf4$",
];

/// Its metrics.
const METRICS: &str = "\
# HELP grid_sessions_created_total Sessions that were created.
# TYPE grid_sessions_created_total counter
grid_sessions_created_total 1
# HELP grid_sessions_ended_total Sessions that have ended: by their client, idle, or with their node.
# TYPE grid_sessions_ended_total counter
grid_sessions_ended_total{cause=\"quit\"} 0
grid_sessions_ended_total{cause=\"idle\"} 0
grid_sessions_ended_total{cause=\"node\"} 0
# HELP grid_starts_failed_total Starts of a session at a node that failed.
# TYPE grid_starts_failed_total counter
grid_starts_failed_total 1
# HELP grid_requests_queued_total Requests for a session that were queued.
# TYPE grid_requests_queued_total counter
grid_requests_queued_total 4
# HELP grid_requests_timed_out_total Requests whose deadline came first.
# TYPE grid_requests_timed_out_total counter
grid_requests_timed_out_total 0
# HELP grid_requests_cleared_total Requests that were cleared from the queue, also by who asked.
# TYPE grid_requests_cleared_total counter
grid_requests_cleared_total 0
# HELP grid_requests_withdrawn_total Requests that were cleared by who asked.
# TYPE grid_requests_withdrawn_total counter
grid_requests_withdrawn_total 0
# HELP grid_requests_refused_total Requests whose last start failed.
# TYPE grid_requests_refused_total counter
grid_requests_refused_total 0
# HELP grid_nodes_registered_total Registrations of nodes.
# TYPE grid_nodes_registered_total counter
grid_nodes_registered_total 1
# HELP grid_nodes_suspected_total Nodes that were silent for so long that they take no session.
# TYPE grid_nodes_suspected_total counter
grid_nodes_suspected_total 0
# HELP grid_nodes_back_total Suspect nodes that gave a sign of life.
# TYPE grid_nodes_back_total counter
grid_nodes_back_total 0
# HELP grid_nodes_draining_total Nodes that take no new session from then on.
# TYPE grid_nodes_draining_total counter
grid_nodes_draining_total 0
# HELP grid_nodes_removed_total Nodes that were removed.
# TYPE grid_nodes_removed_total counter
grid_nodes_removed_total 0
# HELP grid_nodes_lapsed_total Nodes that were silent for too long.
# TYPE grid_nodes_lapsed_total counter
grid_nodes_lapsed_total 0
# HELP grid_session_wait_seconds How long the requests of created sessions had waited.
# TYPE grid_session_wait_seconds histogram
grid_session_wait_seconds_bucket{le=\"0.1\"} 0
grid_session_wait_seconds_bucket{le=\"0.5\"} 0
grid_session_wait_seconds_bucket{le=\"1\"} 1
grid_session_wait_seconds_bucket{le=\"5\"} 1
grid_session_wait_seconds_bucket{le=\"15\"} 1
grid_session_wait_seconds_bucket{le=\"60\"} 1
grid_session_wait_seconds_bucket{le=\"300\"} 1
grid_session_wait_seconds_bucket{le=\"+Inf\"} 1
grid_session_wait_seconds_sum 0.900
grid_session_wait_seconds_count 1
# HELP grid_nodes Registered nodes by their state.
# TYPE grid_nodes gauge
grid_nodes{state=\"up\"} 1
grid_nodes{state=\"suspect\"} 0
grid_nodes{state=\"draining\"} 0
# HELP grid_slots Slots by their state.
# TYPE grid_slots gauge
grid_slots{state=\"free\"} 1
grid_slots{state=\"starting\"} 2
grid_slots{state=\"busy\"} 1
grid_slots{state=\"closing\"} 0
# HELP grid_sessions Sessions that run.
# TYPE grid_sessions gauge
grid_sessions 1
# HELP grid_queue_waiting Requests that wait for a slot.
# TYPE grid_queue_waiting gauge
grid_queue_waiting 1
# HELP grid_journal_entries_total Entries of the journal.
# TYPE grid_journal_entries_total counter
grid_journal_entries_total 11
# HELP grid_last_entry_seconds The moment of the last entry, since the hub's clock began.
# TYPE grid_last_entry_seconds gauge
grid_last_entry_seconds 62.500
";

/// Its page.
const PAGE: &str = "\
<!DOCTYPE html>
<html lang=\"en\">
<head>
<meta charset=\"utf-8\">
<meta http-equiv=\"refresh\" content=\"10\">
<title>Grid</title>
<style>
body { font-family: sans-serif; margin: 2em; color: #222; }
table { border-collapse: collapse; }
th, td { text-align: left; padding: 0.2em 1em 0.2em 0; border-bottom: 1px solid #ddd; }
i { font-style: normal; display: inline-block; min-width: 1.2em; padding: 0.1em; margin-right: 0.2em; text-align: center; }
.busy, rect { background: #8fc98f; fill: #8fc98f; }
.starting { background: #f4d58d; }
.closing { background: #cccccc; }
.suspect, .draining { color: #b3541e; }
path { fill: none; stroke: #b3541e; stroke-width: 2; }
line { stroke: #888; }
text { font-size: 12px; }
</style>
</head>
<body>
<h1>Grid</h1>
<p>1 sessions run, 1 requests wait, 1 nodes are registered. The last entry was made 62.500 s after the hub's clock began.</p>
<h2>Nodes</h2>
<table>
<tr><th>Node</th><th>Name</th><th>State</th><th>Slots in use</th><th>Free</th></tr>
<tr><td>1</td><td>red &quot;one&quot;</td><td class=\"up\">up</td><td><i class=\"busy\">0</i><i class=\"starting\">1</i><i class=\"starting\">2</i></td><td>1</td></tr>
</table>
<h2>Waiting requests</h2>
<table>
<tr><th>Request</th><th>Waits for</th></tr>
<tr><td>2</td><td>1.500 s</td></tr>
</table>
<h2>The last hour</h2>
<svg viewBox=\"0 0 640 140\" width=\"640\" height=\"140\" role=\"img\">
<line x1=\"20\" y1=\"110\" x2=\"620\" y2=\"110\"/>
<text x=\"20\" y=\"128\">59 minutes ago</text>
<text x=\"560\" y=\"128\">this minute</text>
<rect x=\"600\" y=\"10\" width=\"8\" height=\"100\"/>
<rect x=\"610\" y=\"110\" width=\"8\" height=\"0\"/>
<path d=\"M600 110H600V110H610V10H620\"/>
</svg>
<p>Bars: sessions that were created in a minute, at most 1. Line: requests that were not settled, at most 3.</p>
</body>
</html>
";

fn are_reported(alloc: Global, journal: &mut Vec<u8>) -> Option<bool> {
    if !put_all(journal, HISTORY) {
        return None;
    }
    let has_metrics = tells(alloc, &["--metrics"], journal.as_slice(), METRICS)?;
    let has_page = tells(alloc, &["--page"], journal.as_slice(), PAGE)?;
    Some(has_metrics && has_page)
}

#[test]
fn a_history_has_its_metrics_and_its_page(rt: HostRuntime) {
    let so = are_reported(rt.alloc(), &mut Vec::new(rt.alloc()));
    assert!(rt; so == Some(true));
}
