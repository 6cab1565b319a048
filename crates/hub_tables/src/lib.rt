//! All that the hub knows of its nodes, slots, requests and sessions: its tables in one value, which stands for a history.
//!
//! Choices that concern this crate alone:
//!
//! - The tables have no history, so each contract ranges over all that they may stand for. A query says what it tells of
//!   each of them (`Tells`); each kind of change has one call, which makes it in all tables, raises the clock and lets
//!   nodes go that are not listed any more (`Notes`). That the entry is legal is a premise for each history and no
//!   `requires`; the code is safe for any change.
//! - A registration and a request take the next number. `next_node_number` and `next_request_number` tell it, and what
//!   the history says of it.
//! - A reservation asks `NodeTable::make_room` first, then `RequestTable::reserved`, and then the two that can't
//!   refuse; a binding asks the `LiveMap` first; a registration the slots before the nodes. So a refusal leaves every
//!   table standing for what it stood for, and nothing is taken back.
//! - A search that found nothing is remembered, with its moment: no request below a number has a fitting slot at any
//!   moment from that one on. The moment is kept because a call that makes no entry moves no clock, so a later call may
//!   come at an earlier moment and find a request whose deadline is not there yet; it searches anew. A registration, a
//!   slot that becomes free and a failed start forget it; a new request is looked at alone.
#![tactic(auto)]

mod laws;
mod tables;

pub use tables::HubTables;
