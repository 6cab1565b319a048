//! What goes the same way over a hub of one thread and over a shared one. A table is named in one function alone, since each that names
//! it has it written out.
use crate::tables::{
    DRAINED_GOES, DRAINED_STAYS, FAILING, FORMS, FailingRow, MISBEHAVING, Play, STARTED, USED,
    malicious_rows,
};
use crate::{local, plays, seats};
use std::alloc::Global;
use std::slice;
use std::sync::Wait;

/// Over the hub of one thread and over seats of a shared one.
fn rows_go<R: Wait>(rt: &R, alloc: Global, rows: &[FailingRow]) -> bool {
    local::failing::rows_go(alloc, rows) && seats::rows_go(rt, alloc, rows)
}

fn all_go<R: Wait>(rt: &R, alloc: Global, plays: &[Play]) -> bool {
    local::plays::all_go(alloc, plays, &[1]) && plays::all_go(rt, alloc, plays)
}

/// A drained node without sessions is removed by a sweep, which the hub of one thread makes before each request.
fn drained_go<R: Wait>(rt: &R, alloc: Global, swept: &Play, unswept: &Play) -> bool {
    local::plays::all_go(alloc, slice::from_ref(swept), &[1])
        && plays::all_go(rt, alloc, slice::from_ref(unswept))
}

#[test]
fn one_call_fails(rt: HostRuntime) {
    assert!(rt; rows_go(&rt, rt.alloc(), &FAILING));
}

#[test]
fn sessions_are_started_as_worked_out(rt: HostRuntime) {
    assert!(rt; all_go(&rt, rt.alloc(), &STARTED));
}

#[test]
fn sessions_are_used_as_worked_out(rt: HostRuntime) {
    assert!(rt; all_go(&rt, rt.alloc(), &USED));
}

#[test]
fn requests_of_each_form_go_as_worked_out(rt: HostRuntime) {
    assert!(rt; all_go(&rt, rt.alloc(), &FORMS));
}

#[test]
fn a_drained_node_goes_as_worked_out(rt: HostRuntime) {
    assert!(rt; drained_go(&rt, rt.alloc(), &DRAINED_GOES, &DRAINED_STAYS));
}

#[test]
fn nodes_misbehave(rt: HostRuntime) {
    assert!(rt; all_go(&rt, rt.alloc(), &MISBEHAVING));
}

#[test]
fn a_hub_of_one_thread_refuses_malicious_bytes(rt: HostRuntime) {
    assert!(rt; local::plays::are_refused(rt.alloc(), malicious_rows()));
}

#[test]
fn a_shared_hub_refuses_malicious_bytes(rt: HostRuntime) {
    assert!(rt; plays::are_refused(&rt, rt.alloc(), malicious_rows()));
}
