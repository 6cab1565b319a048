//! Worked lines: what is told of each entry of a history, and that nothing is told of the others.
use crate::journal::log::logs::{FIRST, HEAD, put_all, tells};
use std::alloc::Global;

/// The entries of a history, each with what is told of it.
const LINES: &[(&[u8], &str)] = &[
    (
        b"\0\0\0\0\0\0\0\x01\x01\0\0\0\x01\0\0\0\x09red \"one\"\x0e127.0.0.1:5555\0\x04\0\0\0\x02\0\0\0\x01\0\0\0\x0bbrowserName\0\0\0\0\x06chrome\0\x03\0\0\0\x01\0\0\0\x0bbrowserName\0\0\0\0\x07firefox\0\x01\0\0\0\0\0\0\0\x03\xe8",
        "1000 node registered node=1 name=\"red \\\"one\\\"\" address=\"127.0.0.1:5555\" slots=4\n",
    ),
    (
        b"\0\0\0\0\0\0\0\x01\x01\0\0\0\x02\0\0\0\x04blue\x0e127.0.0.1:5555\0\x04\0\0\0\x02\0\0\0\x01\0\0\0\x0bbrowserName\0\0\0\0\x06chrome\0\x03\0\0\0\x01\0\0\0\x0bbrowserName\0\0\0\0\x07firefox\0\x01\0\0\0\0\0\0\0\x05\xdc",
        "1500 node registered node=2 name=\"blue\" address=\"127.0.0.1:5555\" slots=4\n",
    ),
    (
        b"\0\0\0\0\0\0\0\x04\x06\0\0\0\0\0\0\0\x01\0\x01\0\0\0\x01\0\0\0\x0bbrowserName\0\0\0\0\x06chrome\0\0\0\0\0\x04\x9b\xb0\0\0\0\0\0\0\x07\xd0",
        "2000 request queued request=1 browser=\"chrome\" deadline=302000\n",
    ),
    (
        b"\0\0\0\0\0\0\0\x02\x08\0\0\0\0\0\0\0\x01\0\0\0\x01\0\0\x03s-1\0\0\0\x02\0\0\0\x0bbrowserName\0\0\0\0\x06chrome\0\0\0\x0ebrowserVersion\0\0\0\0\x05126.0\0\0\0\0\0\0\x0bT",
        "2900 session created session=s-1 request=1 node=1 slot=0 name=\"red \\\"one\\\"\" waited_ms=900 browser=\"chrome\" version=\"126.0\"\n",
    ),
    (
        b"\0\0\0\0\0\0\0\x04\x0c\0\0\0\0\0\0\0\x01\0\0\0\0\0\0\x0bT",
        "",
    ),
    (
        b"\0\0\0\0\0\0\0\x04\x0d\0\0\0\0\0\0\0\x01\0\0\0\0\0\0\x13\x88",
        "",
    ),
    (
        b"\0\0\0\0\0\0\0\x05\x06\0\0\0\0\0\0\0\x02\0\x01\0\0\0\x01\0\0\0\x0bbrowserName\0\0\0\0\x07firefox\0\0\0\0\0\x04\xabP\0\0\0\0\0\0\x17p",
        "6000 request queued request=2 browser=\"firefox\" deadline=306000\n",
    ),
    (
        b"\0\0\0\0\0\0\0\x02\x08\0\0\0\0\0\0\0\x02\0\0\0\x02\0\0\x03s-2\0\0\0\x01\0\0\0\x0bbrowserName\0\0\0\0\x07firefox\0\0\0\0\0\0\x19d",
        "6500 session created session=s-2 request=2 node=2 slot=0 name=\"blue\" waited_ms=500 browser=\"firefox\"\n",
    ),
    (
        b"\0\0\0\0\0\0\0\x06\x06\0\0\0\0\0\0\0\x03\0\x01\0\0\0\x01\0\0\0\x0bbrowserName\0\0\0\0\x06chrome\0\0\0\0\0\x04\xaf8\0\0\0\0\0\0\x1bX",
        "7000 request queued request=3 browser=\"chrome\" deadline=307000\n",
    ),
    // Other nodes are tried.
    (
        b"\0\0\0\0\0\0\0\x03\x09\0\0\0\0\0\0\0\x03\0\0\0\x01\0\x01\x01\0\0\0\0\0\0\0\0\x1c\x84",
        "7300 start failed request=3 node=1 slot=1 name=\"red \\\"one\\\"\" why=\"the node did not answer\" waited_ms=300\n",
    ),
    (
        b"\0\0\0\0\0\0\0\x03\x09\0\0\0\0\0\0\0\x03\0\0\0\x01\0\x01\0\x10no display: \"99\"\0\x01\0\0\0\0\0\0\x1c\xe8",
        "7400 request refused request=3 node=1 slot=1 name=\"red \\\"one\\\"\" why=\"the node refused\" message=\"no display: \\\"99\\\"\" waited_ms=400\n",
    ),
    (
        b"\0\0\0\0\0\0\0\x06\x0c\0\0\0\0\0\0\0\x03\0\0\0\0\0\0\x1c\xe8",
        "",
    ),
    (
        b"\0\0\0\0\0\0\0\x01\x10\0\0\0\x01\0\0\0\0\0\x01\xd8\xa8",
        "121000 node suspect node=1 name=\"red \\\"one\\\"\" meaning=\"no sign of life for long: it gets no new sessions until it gives one\"\n",
    ),
    (
        b"\0\0\0\0\0\0\0\x01\x02\0\0\0\x01\0\0\0\0\0\x01\xdc\x90",
        "122000 node back node=1 name=\"red \\\"one\\\"\" meaning=\"it gave a sign of life\"\n",
    ),
    // It was not suspect any more.
    (b"\0\0\0\0\0\0\0\x01\x02\0\0\0\x01\0\0\0\0\0\x01\xe0x", ""),
    (
        b"\0\0\0\0\0\0\0\x04\x0e\0\0\0\0\0\0\0\x01\0\0\0\0\0\0\x01\xe4`",
        "124000 session ended session=s-1 request=1 node=1 slot=0 cause=client lasted_ms=121100\n",
    ),
    (b"\0\0\0\0\0\0\0\x04\x0f\0\0\0\x01\0\0", ""),
    (
        b"\0\0\0\0\0\0\0\x07\x06\0\0\0\0\0\0\0\x04\0\x01\0\0\0\x01\0\0\0\x0bbrowserName\0\0\0\0\x06chrome\0\0\0\0\0\x06\x8f\xb0\0\0\0\0\0\x01\xfb\xd0",
        "130000 request queued request=4 browser=\"chrome\" deadline=430000\n",
    ),
    (
        b"\0\0\0\0\0\0\0\x08\x06\0\0\0\0\0\0\0\x05\0\x01\0\0\0\x01\0\0\0\x0bbrowserName\0\0\0\0\x06chrome\0\0\0\0\0\x06\x93\x98\0\0\0\0\0\x01\xff\xb8",
        "131000 request queued request=5 browser=\"chrome\" deadline=431000\n",
    ),
    (
        b"\0\0\0\0\0\0\0\x07\x0b\0\0\0\0\0\0\0\x04\0\0\0\0\0\x02\x03\xa0",
        "132000 request cleared request=4 waited_ms=2000\n",
    ),
    (
        b"\0\0\0\0\0\0\0\x07\x0c\0\0\0\0\0\0\0\x04\0\0\0\0\0\x02\x03\xa0",
        "132000 request withdrawn request=4\n",
    ),
    // The queue was cleared by another than who asked.
    (
        b"\0\0\0\0\0\0\0\x09\x0b\0\0\0\0\0\0\0\x05\0\0\0\0\0\x02\x07\x88",
        "133000 request cleared request=5 waited_ms=2000\n",
    ),
    (
        b"\0\0\0\0\0\0\0\x08\x0c\0\0\0\0\0\0\0\x05\0\0\0\0\0\x02\x07\xba",
        "",
    ),
    (
        b"\0\0\0\0\0\0\0\x01\x05\0\0\0\x02\0\0\0\0\0\x03\xc2\xe4",
        "246500 node lapsed node=2 name=\"blue\" meaning=\"no sign of life for too long: its sessions are over\"\n246500 session ended session=s-2 request=2 node=2 slot=0 cause=node lasted_ms=240000\n",
    ),
    (
        b"\0\0\0\0\0\0\0\x0a\x06\0\0\0\0\0\0\0\x06\0\x01\0\0\0\x01\0\0\0\x0bbrowserName\0\0\0\0\x06chrome\0\0\0\0\0\x08dp\0\0\0\0\0\x03\xd0\x90",
        "250000 request queued request=6 browser=\"chrome\" deadline=550000\n",
    ),
    (
        b"\0\0\0\0\0\0\0\x02\x08\0\0\0\0\0\0\0\x06\0\0\0\x01\0\0\x03s-6\0\0\0\x01\0\0\0\x0bbrowserName\0\0\0\0\x06chrome\0\0\0\0\0\x03\xd4\x14",
        "250900 session created session=s-6 request=6 node=1 slot=0 name=\"red \\\"one\\\"\" waited_ms=900 browser=\"chrome\"\n",
    ),
    (
        b"\0\0\0\0\0\0\0\x01\x03\0\0\0\x01\0\0\0\0\0\x03\xfb\x88",
        "261000 node draining node=1 name=\"red \\\"one\\\"\" meaning=\"it gets no new sessions\"\n",
    ),
    (
        b"\0\0\0\0\0\0\0\x0c\x0e\0\0\0\0\0\0\0\x06\x01\0\0\0\0\0\x08g\xf4",
        "550900 session ended session=s-6 request=6 node=1 slot=0 cause=idle lasted_ms=300000\n",
    ),
    (
        b"\0\0\0\0\0\0\0\x01\x04\0\0\0\x01\0\0\0\0\0\x08\x8fh",
        "561000 node removed node=1 name=\"red \\\"one\\\"\" meaning=\"sessions that run on it go on\"\n",
    ),
];

/// Whether the journal with one entry more is told so, with one line more.
fn goes_on(
    alloc: Global,
    journal: &mut Vec<u8>,
    told: &mut String,
    entry: &[u8],
    line: &str,
) -> Option<bool> {
    journal.extend_from_slice(entry).ok()?;
    told.push_str(line).ok()?;
    tells(alloc, &[], journal.as_slice(), told.as_str())
}

fn all_go_on(alloc: Global, journal: &mut Vec<u8>, told: &mut String) -> Option<bool> {
    journal.extend_from_slice(HEAD).ok()?;
    told.push_str(FIRST).ok()?;
    for (entry, line) in LINES {
        if !goes_on(alloc, journal, told, entry, line)? {
            return Some(false);
        }
    }
    Some(true)
}

#[test]
fn each_kind_of_entry_has_its_line(rt: HostRuntime) {
    let mut journal = Vec::new(rt.alloc());
    let mut told = String::new(rt.alloc());
    let so = all_go_on(rt.alloc(), &mut journal, &mut told);
    assert!(rt; so == Some(true));
}

/// A journal of a hub whose queue takes one request: its head, and that one is queued, and times out.
const FULL: &[&[u8]] = &[
    b"GRIDJ001\0\0\0\0\0\x04\x93\xe0\0\0\0\0\0\x04\x93\xe0\0\0\0\0\0\x01\xd4\xc0\0\0\0\x01\0\0\0\0\x01\0\0\0\0\0\0\0\x01\0\0\0\0\0\x03\xa9\x80",
    b"\0\0\0\0\0\0\0\x03\x06\0\0\0\0\0\0\0\x01\0\x01\0\0\0\x01\0\0\0\x0bbrowserName\0\0\0\0\x06chrome\0\0\0\0\0\x04\x93\xe7\0\0\0\0\0\0\0\x07",
    b"\0\0\0\0\0\0\0\x03\x0a\0\0\0\0\0\0\0\x01\0\0\0\0\0\x04\x93\xe7",
];

/// What is told of a request that fills the queue and times out, as JSON and as text.
const TIMED_OUT: &[(&[&str], &str)] = &[
    (
        &["--json"],
        "{\"moments\":\"milliseconds since the hub's clock began\"}\n{\"at\":7,\"event\":\"request queued\",\"request\":1,\"browser\":\"chrome\",\"deadline\":300007}\n{\"at\":7,\"event\":\"queue full\",\"requests\":1,\"limit\":1,\"meaning\":\"further requests are refused\"}\n{\"at\":300007,\"event\":\"request timed out\",\"request\":1,\"waited_ms\":300000}\n{\"at\":300007,\"event\":\"queue has room\",\"requests\":0,\"limit\":1,\"meaning\":\"requests are taken again\"}\n",
    ),
    (
        &[],
        "# moments are milliseconds since the hub's clock began\n7 request queued request=1 browser=\"chrome\" deadline=300007\n7 queue full requests=1 limit=1 meaning=\"further requests are refused\"\n300007 request timed out request=1 waited_ms=300000\n300007 queue has room requests=0 limit=1 meaning=\"requests are taken again\"\n",
    ),
];

// What is not known of an entry is left out: entries are not checked.
const UNKNOWN: &[&[u8]] = &[
    HEAD,
    b"\0\0\0\0\0\0\0\x03\x08\0\0\0\0\0\0\0\x01\0\0\0\x09\0\0\x01s\0\0\0\x01\0\0\0\x0bbrowserName\0\0\0\0\x06chrome\0\0\0\0\0\0\0\x05",
    b"\0\0\0\0\0\0\0\x03\x0e\0\0\0\0\0\0\0\x02\0\0\0\0\0\0\0\0\x06",
];

const KNOWN: &str =
    "# moments are milliseconds since the hub's clock began\n5 session created session=s request=1 node=9 slot=0 browser=\"chrome\"\n";

fn are_told(
    alloc: Global,
    journal: &mut Vec<u8>,
    entries: &[&[u8]],
    rows: &[(&[&str], &str)],
) -> Option<bool> {
    if !put_all(journal, entries) {
        return None;
    }
    for (words, told) in rows {
        if !tells(alloc, words, journal.as_slice(), told)? {
            return Some(false);
        }
    }
    Some(true)
}

#[test]
fn a_full_queue_is_told_in_both_forms(rt: HostRuntime) {
    let so = are_told(rt.alloc(), &mut Vec::new(rt.alloc()), FULL, TIMED_OUT);
    assert!(rt; so == Some(true));
    let rows: &[(&[&str], &str)] = &[(&[], KNOWN)];
    let so = are_told(rt.alloc(), &mut Vec::new(rt.alloc()), UNKNOWN, rows);
    assert!(rt; so == Some(true));
}
