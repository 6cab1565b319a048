//! What was counted.
ghost use Rattle.std.specs.Prelude.{◌≡◌, OnOk};
ghost use Rattle.grid_metrics.specs.Metrics.{bucket_rows, count_rows, histogram_rows, node_rows, request_rows, session_rows, wait_rows};
ghost use Rattle.grid_metrics.specs.Rows.{with_rows};

use crate::rows::Metrics;
use grid_farm::{Counts, NodeCounts, RequestCounts, SessionCounts, WaitCounts};
use grid_types::NoMemory;

impl Metrics {
    /// The sessions that were created and have ended.
    fn session_rows(&mut self, counts: &SessionCounts) -> Result<(), NoMemory>
        ensures { OnOk result (self.new.sheet.bytes.items
            ≡ with_rows self.old.sheet.bytes.items (session_rows counts.now)) }
    {
        self.single(
            "counter",
            "grid_sessions_created_total",
            "Sessions that were created.",
            counts.created,
        )?;
        self.family(
            "counter",
            "grid_sessions_ended_total",
            "Sessions that have ended: by their client, idle, or with their node.",
        )?;
        self.series("grid_sessions_ended_total{cause=\"quit\"}", counts.quit)?;
        self.series("grid_sessions_ended_total{cause=\"idle\"}", counts.idle)?;
        self.series(
            "grid_sessions_ended_total{cause=\"node\"}",
            counts.with_node,
        )?;
        self.single(
            "counter",
            "grid_starts_failed_total",
            "Starts of a session at a node that failed.",
            counts.failed,
        )
    }

    /// What became of requests.
    fn request_rows(&mut self, counts: &RequestCounts) -> Result<(), NoMemory>
        ensures { OnOk result (self.new.sheet.bytes.items
            ≡ with_rows self.old.sheet.bytes.items (request_rows counts.now)) }
    {
        self.single(
            "counter",
            "grid_requests_queued_total",
            "Requests for a session that were queued.",
            counts.queued,
        )?;
        self.single(
            "counter",
            "grid_requests_timed_out_total",
            "Requests whose deadline came first.",
            counts.timed_out,
        )?;
        self.single(
            "counter",
            "grid_requests_cleared_total",
            "Requests that were cleared from the queue, also by who asked.",
            counts.cleared,
        )?;
        self.single(
            "counter",
            "grid_requests_withdrawn_total",
            "Requests that were cleared by who asked.",
            counts.withdrawn,
        )?;
        self.single(
            "counter",
            "grid_requests_refused_total",
            "Requests whose last start failed.",
            counts.refused,
        )
    }

    /// What happened to nodes.
    fn node_rows(&mut self, counts: &NodeCounts) -> Result<(), NoMemory>
        ensures { OnOk result (self.new.sheet.bytes.items
            ≡ with_rows self.old.sheet.bytes.items (node_rows counts.now)) }
    {
        self.single(
            "counter",
            "grid_nodes_registered_total",
            "Registrations of nodes.",
            counts.registered,
        )?;
        self.single(
            "counter",
            "grid_nodes_suspected_total",
            "Nodes that were silent for so long that they take no session.",
            counts.suspected,
        )?;
        self.single(
            "counter",
            "grid_nodes_back_total",
            "Suspect nodes that gave a sign of life.",
            counts.back,
        )?;
        self.single(
            "counter",
            "grid_nodes_draining_total",
            "Nodes that take no new session from then on.",
            counts.draining,
        )?;
        self.single(
            "counter",
            "grid_nodes_removed_total",
            "Nodes that were removed.",
            counts.removed,
        )?;
        self.single(
            "counter",
            "grid_nodes_lapsed_total",
            "Nodes that were silent for too long.",
            counts.lapsed,
        )
    }

    /// How many sessions had waited at most so long.
    fn bucket_rows(&mut self, counts: &WaitCounts) -> Result<(), NoMemory>
        ensures { OnOk result (self.new.sheet.bytes.items
            ≡ with_rows self.old.sheet.bytes.items (bucket_rows counts.now)) }
    {
        self.family(
            "histogram",
            "grid_session_wait_seconds",
            "How long the requests of created sessions had waited.",
        )?;
        self.series(
            "grid_session_wait_seconds_bucket{le=\"0.1\"}",
            counts.within_100,
        )?;
        self.series(
            "grid_session_wait_seconds_bucket{le=\"0.5\"}",
            counts.within_500,
        )?;
        self.series(
            "grid_session_wait_seconds_bucket{le=\"1\"}",
            counts.within_1000,
        )?;
        self.series(
            "grid_session_wait_seconds_bucket{le=\"5\"}",
            counts.within_5000,
        )?;
        self.series(
            "grid_session_wait_seconds_bucket{le=\"15\"}",
            counts.within_15000,
        )?;
        self.series(
            "grid_session_wait_seconds_bucket{le=\"60\"}",
            counts.within_60000,
        )?;
        self.series(
            "grid_session_wait_seconds_bucket{le=\"300\"}",
            counts.within_300000,
        )
    }

    /// How many sessions were created, and how long they had waited together.
    fn wait_rows(&mut self, counts: &WaitCounts) -> Result<(), NoMemory>
        ensures { OnOk result (self.new.sheet.bytes.items
            ≡ with_rows self.old.sheet.bytes.items (wait_rows counts.now)) }
    {
        self.series(
            "grid_session_wait_seconds_bucket{le=\"+Inf\"}",
            counts.count,
        )?;
        self.time("grid_session_wait_seconds_sum", counts.sum_ms)?;
        self.series("grid_session_wait_seconds_count", counts.count)
    }

    /// The counts of nodes, requests and sessions.
    pub(crate) fn count_rows(&mut self, counts: &Counts) -> Result<(), NoMemory>
        ensures { OnOk result (self.new.sheet.bytes.items
            ≡ count_rows self.old.sheet.bytes.items counts.now) }
    {
        self.session_rows(&counts.sessions)?;
        self.request_rows(&counts.requests)?;
        self.node_rows(&counts.nodes)
    }

    /// The histogram of waits.
    pub(crate) fn histogram_rows(&mut self, counts: &WaitCounts) -> Result<(), NoMemory>
        ensures { OnOk result (self.new.sheet.bytes.items
            ≡ histogram_rows self.old.sheet.bytes.items counts.now) }
    {
        self.bucket_rows(counts)?;
        self.wait_rows(counts)
    }
}
