//! Connections as tables have them: what a client sends, what nodes reply, and what is to come of it.

mod client;
mod failing;
mod malicious;
mod plays;
mod told;
mod worked;

pub(crate) use client::{Client, asks_of, joined, link_of, nodes_of, plain};
pub(crate) use failing::{
    AFTER, FAILING, FailingRow, Fails, REGISTERS, client_of, five_requests, foretold, front,
    nodes_failing,
};
pub(crate) use malicious::{MaliciousRow, malicious_play, malicious_rows};
pub(crate) use plays::{PIECES, Play, Sends, client_in, registers, sent};
pub(crate) use told::{
    BAD, CONTINUE, FAULT, MISSING, NO_COMMAND, NO_SESSION, NULL, OK, Told, text_of,
};
pub(crate) use worked::{
    BEATEN_STAYS, DRAINED_GOES, DRAINED_STAYS, FORMS, IDLE_ENDS, MISBEHAVING, NONE_MATCHES,
    SILENT_IS_SUSPECT, SILENT_LAPSES, STARTED, USED,
};
