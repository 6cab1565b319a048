//! Tests of moments at their limits.
use grid_types::{HubConfig, Moment};
use moment_rules::*;

#[derive(Clone, Copy)]
enum Rule {
    Silent,
    Lapsed,
    Idle,
    Overdue,
}

use Rule::{Idle, Lapsed, Overdue, Silent};

fn answer(rule: Rule, from: Moment, at: Moment, config: &HubConfig) -> bool {
    match rule {
        Silent => silent(from, at, config),
        Lapsed => lapsed(from, at, config),
        Idle => idle(from, at, config),
        Overdue => overdue(from, at),
    }
}

/// The beat, the touch or the deadline, the moment, and the answer: one millisecond before each limit, and at it, by the
/// default of 240,000, 120,000 and 300,000 milliseconds.
const CASES: &[(Rule, u64, u64, bool)] = &[
    (Silent, 0, 119_999, false),
    (Lapsed, 0, 119_999, false),
    (Silent, 0, 120_000, true),
    (Lapsed, 0, 120_000, false),
    (Silent, 5, 120_004, false),
    (Lapsed, 5, 120_004, false),
    (Silent, 5, 240_004, true),
    (Lapsed, 5, 240_004, false),
    (Silent, 5, 240_005, true),
    (Lapsed, 5, 240_005, true),
    (Silent, 5, 4, false),
    (Lapsed, 5, 4, false),
    (Silent, 0, 4_611_686_018_427_387_903, true),
    (Lapsed, 0, 4_611_686_018_427_387_903, true),
    (Idle, 0, 299_999, false),
    (Idle, 0, 300_000, true),
    (Idle, 100_000, 399_999, false),
    (Idle, 100_000, 400_000, true),
    (Idle, 100_000, 0, false),
    (Overdue, 300_000, 299_999, false),
    (Overdue, 300_000, 300_000, true),
    (Overdue, 300_000, 300_001, true),
    (Overdue, 0, 0, true),
];

fn all_answer(cases: &[(Rule, u64, u64, bool)], config: &HubConfig) -> bool {
    for (rule, from, at, wanted) in cases {
        if answer(*rule, Moment(*from), Moment(*at), config) != *wanted {
            return false;
        }
    }
    true
}

#[test]
fn moments_at_their_limits(rt: HostRuntime) {
    assert!(rt; all_answer(CASES, &HubConfig::default()));
}
