//! The lines of one entry.
ghost use Rattle.std.specs.Prelude.{◌≡◌, ◌∷◌, [], IfOk, OnOk, option_copied};
ghost use Rattle.grid_log.specs.Events.{beaten_events, change_events, created_event, ended_event, ended_events, ends_on, failed_event, failed_words, lapsed_events, node_event, queued_event, registered_event, request_event, taken_events};
ghost use Rattle.grid_log.specs.Facts.{line, lines, with_lines};
ghost use Rattle.grid_log.specs.Past.{queued_in};
ghost use Rattle.grid_log.specs.Queue.{queue_event, queue_events, queue_told};
ghost use Rattle.grid_log.specs.Recalls.{recalled};

use crate::facts::{address_text, cause_word, failed_words, first_browser, since, slots_in};
use crate::form::Form;
use crate::line::Line;
use crate::recall::Recall;
use crate::rows::SessionRow;
use grid_types::{
    Caps, Change, Choices, Entry, FailWhy, Moment, NoMemory, NodeNo, Registration, ReqNo,
    SessionId, SlotId,
};
use std::alloc::Global;

/// What it means for a node's sessions that it is suspect, back, draining, removed, and that it has lapsed.
const SUSPECT: &str = "no sign of life for long: it gets no new sessions until it gives one";

const BACK: &str = "it gave a sign of life";

const DRAINING: &str = "it gets no new sessions";

const REMOVED: &str = "sessions that run on it go on";

const LAPSED: &str = "no sign of life for too long: its sessions are over";

/// A session that was created.
#[derive(Clone, Copy)]
struct Made<'a> {
    request: ReqNo,
    slot: SlotId,
    session: &'a SessionId,
    caps: &'a Caps,
    at: Moment,
}

/// A start that failed.
#[derive(Clone, Copy)]
struct FailedStart<'a> {
    request: ReqNo,
    slot: SlotId,
    why: &'a FailWhy,
    /// No other node is tried.
    last: bool,
    /// When the request was queued, where that is known.
    queued: Option<u64>,
    at: Moment,
}

/// How many requests were not settled before an entry, and how many are behind it.
#[derive(Clone, Copy)]
pub(crate) struct QueueCount {
    /// So many the queue takes.
    pub(crate) limit: u64,
    pub(crate) before: u64,
    pub(crate) requests: u64,
}

/// A form, and the allocator for lines of it.
#[derive(Clone, Copy)]
pub(crate) struct Teller {
    pub(crate) form: Form,
    pub(crate) alloc: Global,
}

impl Teller {
    fn registered(
        &self,
        node: NodeNo,
        registration: &Registration,
        at: Moment,
    ) -> Result<Vec<u8>, NoMemory>
        ensures { IfOk result (λ bytes. bytes.items
            ≡ lines self.now.form (registered_event node registration.now at.0 ∷ [])) }
    {
        let mut line = Line::begin(self.alloc, self.form, at.0, "node registered")?;
        line.number("node", u64::from(node))?;
        line.name("name", registration.name.as_str())?;
        line.name("address", address_text(&registration.address))?;
        line.number("slots", slots_in(registration.groups.items()))?;
        line.end()
    }

    fn of_node(
        &self,
        what: &str,
        meaning: &str,
        node: NodeNo,
        name: Option<&str>,
        at: Moment,
    ) -> Result<Vec<u8>, NoMemory>
        ensures { IfOk result (λ bytes. bytes.items ≡ lines self.now.form
            (node_event what.now meaning.now node (option_copied name.entry) at.0 ∷ [])) }
    {
        let mut line = Line::begin(self.alloc, self.form, at.0, what)?;
        line.number("node", u64::from(node))?;
        line.name_if("name", name)?;
        line.name("meaning", meaning)?;
        line.end()
    }

    fn queued(
        &self,
        request: ReqNo,
        browser: Option<&str>,
        deadline: Moment,
        at: Moment,
    ) -> Result<Vec<u8>, NoMemory>
        ensures { IfOk result (λ bytes. bytes.items
            ≡ lines self.now.form (queued_event request (option_copied browser.entry) deadline.0 at.0 ∷ [])) }
    {
        let mut line = Line::begin(self.alloc, self.form, at.0, "request queued")?;
        line.number("request", request)?;
        line.name_if("browser", browser)?;
        line.number("deadline", deadline.0)?;
        line.end()
    }

    fn of_request(
        &self,
        what: &str,
        request: ReqNo,
        queued: Option<u64>,
        at: Moment,
    ) -> Result<Vec<u8>, NoMemory>
        ensures { IfOk result (λ bytes. bytes.items
            ≡ lines self.now.form (request_event what.now request queued at.0 ∷ [])) }
    {
        let mut line = Line::begin(self.alloc, self.form, at.0, what)?;
        line.number("request", request)?;
        line.number_if("waited_ms", since(at.0, queued))?;
        line.end()
    }

    fn failed(&self, start: &FailedStart<'_>, name: Option<&str>) -> Result<Vec<u8>, NoMemory>
        ensures { IfOk result (λ bytes. bytes.items ≡ lines self.now.form
            (failed_event (failed_words start.now.last) start.now.request start.now.slot
            (option_copied name.entry) start.now.why.now start.now.queued start.now.at.0 ∷ [])) }
    {
        let what = failed_words(start.last);
        let mut line = Line::begin(self.alloc, self.form, start.at.0, what)?;
        line.request_at(start.request, start.slot)?;
        line.name_if("name", name)?;
        line.why(start.why)?;
        line.number_if("waited_ms", since(start.at.0, start.queued))?;
        line.end()
    }

    fn created(
        &self,
        made: &Made<'_>,
        name: Option<&str>,
        queued: Option<u64>,
    ) -> Result<Vec<u8>, NoMemory>
        ensures { IfOk result (λ bytes. bytes.items
            ≡ lines self.now.form (created_event made.now.request made.now.slot
            made.now.session.now made.now.caps.now (option_copied name.entry) queued made.now.at.0 ∷ [])) }
    {
        let mut line = Line::begin(self.alloc, self.form, made.at.0, "session created")?;
        line.session_at(made.session, made.request, made.slot)?;
        line.name_if("name", name)?;
        line.number_if("waited_ms", since(made.at.0, queued))?;
        line.browser(made.caps)?;
        line.end()
    }

    fn ended(&self, cause: &str, at: Moment, row: &SessionRow) -> Result<Vec<u8>, NoMemory>
        ensures { IfOk result (λ bytes. bytes.items
            ≡ line self.now.form (ended_event cause.now at.0 row.now)) }
    {
        let mut line = Line::begin(self.alloc, self.form, at.0, "session ended")?;
        line.session_at(&row.session, row.binding, row.slot)?;
        line.word("cause", cause.as_bytes())?;
        line.number("lasted_ms", at.0.saturating_sub(row.at.0))?;
        line.end()
    }

    /// The line of a session's end, where it runs.
    fn ended_if(
        &self,
        cause: &str,
        at: Moment,
        row: Option<&SessionRow>,
    ) -> Result<Vec<u8>, NoMemory>
        ensures { IfOk result (λ bytes. bytes.items
            ≡ lines self.now.form (ended_events cause.now at.0 (option_copied row.entry))) }
    {
        match row {
            Some(row) => self.ended(cause, at, row),
            None => Ok(Vec::new(self.alloc)),
        }
    }

    /// The line of the end of a session that may run on a node that has lapsed, behind `lines`.
    fn end_of(
        &self,
        node: NodeNo,
        at: Moment,
        row: &SessionRow,
        lines: &mut Vec<u8>,
    ) -> Result<(), NoMemory>
        ensures { OnOk result (lines.new.items
            ≡ with_lines self.now.form lines.old.items (ends_on node at.0 (row.now ∷ []))) }
    {
        if row.slot.node == node {
            let line = self.ended("node", at, row)?;
            lines.extend_from_slice(line.as_slice())?;
        }
        Ok(())
    }

    /// The lines of the ends of all sessions on a node that has lapsed, behind `lines`.
    fn ends_on(
        &self,
        node: NodeNo,
        at: Moment,
        rows: &[SessionRow],
        lines: &mut Vec<u8>,
    ) -> Result<(), NoMemory>
        ensures { OnOk result (lines.new.items
            ≡ with_lines self.now.form lines.old.items (ends_on node at.0 rows.now)) }
    {
        for row in rows {
            self.end_of(node, at, row, lines)?;
        }
        Ok(())
    }

    /// The lines of a node that has lapsed, and of the sessions on it.
    fn lapsed(&self, past: &Recall, node: NodeNo, at: Moment) -> Result<Vec<u8>, NoMemory>
        ensures { IfOk result (λ bytes. bytes.items
            ≡ lines self.now.form (lapsed_events (recalled past.now) node at.0)) }
    {
        let mut lines = self.of_node("node lapsed", LAPSED, node, past.name_of(node), at)?;
        self.ends_on(node, at, past.sessions(), &mut lines)?;
        Ok(lines)
    }

    /// The line of a request whose outcome was taken, where it was withdrawn.
    fn taken(
        &self,
        past: &Recall,
        caller: u64,
        request: ReqNo,
        at: Moment,
    ) -> Result<Vec<u8>, NoMemory>
        ensures { IfOk result (λ bytes. bytes.items
            ≡ lines self.now.form (taken_events (recalled past.now) caller request at.0)) }
    {
        if past.was_just_cleared(caller, request) {
            self.of_request("request withdrawn", request, None, at)
        } else {
            Ok(Vec::new(self.alloc))
        }
    }

    /// The line of a node that gave a sign of life, where it was suspect.
    fn beaten(&self, past: &Recall, node: NodeNo, at: Moment) -> Result<Vec<u8>, NoMemory>
        ensures { IfOk result (λ bytes. bytes.items
            ≡ lines self.now.form (beaten_events (recalled past.now) node at.0)) }
    {
        if past.is_suspect(node) {
            self.of_node("node back", BACK, node, past.name_of(node), at)
        } else {
            Ok(Vec::new(self.alloc))
        }
    }

    fn of_queue(
        &self,
        what: &str,
        meaning: &str,
        count: QueueCount,
        at: u64,
    ) -> Result<Vec<u8>, NoMemory>
        ensures { IfOk result (λ bytes. bytes.items ≡ line self.now.form
            (queue_event what.now meaning.now count.requests count.limit at)) }
    {
        let mut line = Line::begin(self.alloc, self.form, at, what)?;
        line.number("requests", count.requests)?;
        line.number("limit", count.limit)?;
        line.name("meaning", meaning)?;
        line.end()
    }

    /// The line of a queue that was full or not, and is now or not.
    fn room(&self, was: bool, is: bool, count: QueueCount, at: u64) -> Result<Vec<u8>, NoMemory>
        ensures { IfOk result (λ bytes. bytes.items ≡ lines self.now.form
            (queue_told was is count.requests count.limit at)) }
    {
        match (was, is) {
            (false, true) => {
                self.of_queue("queue full", "further requests are refused", count, at)
            }
            (true, false) => {
                self.of_queue("queue has room", "requests are taken again", count, at)
            }
            _ => Ok(Vec::new(self.alloc)),
        }
    }

    /// The line of a queue that has become full, or has room again.
    pub(crate) fn room_of(&self, count: QueueCount, at: u64) -> Result<Vec<u8>, NoMemory>
        ensures { IfOk result (λ bytes. bytes.items ≡ lines self.now.form
            (queue_events count.limit count.before count.requests at)) }
    {
        self.room(
            count.limit <= count.before,
            count.limit <= count.requests,
            count,
            at,
        )
    }

    /// The lines of an entry, where so much is past.
    pub(crate) fn lines_of(&self, past: &Recall, entry: &Entry) -> Result<Vec<u8>, NoMemory>
        ensures { IfOk result (λ bytes. bytes.items ≡ lines self.now.form
            (change_events (recalled past.now) entry.now.caller entry.now.change)) }
    {
        match &entry.change {
            Change::Registered {
                node,
                registration,
                at,
            } => self.registered(*node, registration, *at),
            Change::Beaten { node, at } => self.beaten(past, *node, *at),
            Change::Suspected { node, at } => {
                self.of_node("node suspect", SUSPECT, *node, past.name_of(*node), *at)
            }
            Change::Draining { node, at } => {
                self.of_node("node draining", DRAINING, *node, past.name_of(*node), *at)
            }
            Change::Removed { node, at } => {
                self.of_node("node removed", REMOVED, *node, past.name_of(*node), *at)
            }
            Change::Lapsed { node, at } => self.lapsed(past, *node, *at),
            Change::Queued {
                request,
                choices,
                deadline,
                at,
            } => self.queued(*request, first_browser(choices), *deadline, *at),
            Change::Failed {
                request,
                slot,
                why,
                last,
                at,
                ..
            } => self.failed(
                &FailedStart {
                    request: *request,
                    slot: *slot,
                    why,
                    last: *last,
                    queued: past.queued(*request),
                    at: *at,
                },
                past.name_of(slot.node),
            ),
            Change::TimedOut { request, at } => {
                self.of_request("request timed out", *request, past.queued(*request), *at)
            }
            Change::Cleared { request, at } => {
                self.of_request("request cleared", *request, past.queued(*request), *at)
            }
            Change::Taken { request, at } => self.taken(past, entry.caller, *request, *at),
            Change::Bound {
                request,
                slot,
                session,
                caps,
                at,
            } => self.created(
                &Made {
                    request: *request,
                    slot: *slot,
                    session,
                    caps,
                    at: *at,
                },
                past.name_of(slot.node),
                past.queued(*request),
            ),
            Change::Ended { binding, cause, at } => {
                self.ended_if(cause_word(*cause), *at, past.session_of(*binding))
            }
            Change::Reserved { .. } | Change::Touched { .. } | Change::Freed { .. } => {
                Ok(Vec::new(self.alloc))
            }
        }
    }
}
