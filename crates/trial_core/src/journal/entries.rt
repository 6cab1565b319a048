//! Entries of a small history in which each kind of change stands, in the bytes of a journal, and entries that may not follow.

/// The head of a journal with the usual configuration.
pub const HEAD: &[u8] =
    b"GRIDJ001\0\0\0\0\0\x04\x93\xe0\0\0\0\0\0\x04\x93\xe0\0\0\0\0\0\x01\xd4\xc0\0\0'\x10\0\0\0\0\x01\0\0\0\0\0\0\0\x01\0\0\0\0\0\x03\xa9\x80";

/// An entry of the history, and one that may not stand in its place: two starts of which one fails, a session that ends, a request
/// that is cleared, one that times out, and two nodes that go.
pub const HISTORY: &[(&[u8], &[u8])] = &[
    // A node registers; another number than the next.
    (
        b"\0\0\0\0\0\0\0\0\x01\0\0\0\x01\0\0\0\x01a\x03n:1\0\x02\0\0\0\x01\0\0\0\x01\0\0\0\x0bbrowserName\0\0\0\0\x06chrome\0\x02\0\0\0\0\0\0\0\0\0",
        b"\0\0\0\0\0\0\0\0\x01\0\0\0\x02\0\0\0\x01a\x03n:1\0\x02\0\0\0\x01\0\0\0\x01\0\0\0\x0bbrowserName\0\0\0\0\x06chrome\0\x02\0\0\0\0\0\0\0\0\0",
    ),
    // A request is queued; a name that is taken.
    (
        b"\0\0\0\0\0\0\0\0\x06\0\0\0\0\0\0\0\x01\0\x01\0\0\0\x01\0\0\0\x0bbrowserName\0\0\0\0\x06chrome\0\0\0\0\0\x04\x93\xe0\0\0\0\0\0\0\0\0",
        b"\0\0\0\0\0\0\0\0\x01\0\0\0\x02\0\0\0\x01a\x03n:1\0\x02\0\0\0\x01\0\0\0\x01\0\0\0\x0bbrowserName\0\0\0\0\x06chrome\0\x02\0\0\0\0\0\0\0\0\0",
    ),
    // A slot is held for it; a slot that is not the first.
    (
        b"\0\0\0\0\0\0\0\0\x07\0\0\0\0\0\0\0\x01\0\0\0\x01\0\0\0\0\0\0\0\0\0\0\0\0",
        b"\0\0\0\0\0\0\0\0\x07\0\0\0\0\0\0\0\x01\0\0\0\x01\0\x01\0\0\0\0\0\0\0\0\0\0",
    ),
    // Its session is bound; another caller's slot.
    (
        b"\0\0\0\0\0\0\0\0\x08\0\0\0\0\0\0\0\x01\0\0\0\x01\0\0\x02s1\0\0\0\x01\0\0\0\x0bbrowserName\0\0\0\0\x06chrome\0\0\0\0\0\0\0\x0a",
        b"\0\0\0\0\0\0\0\x01\x08\0\0\0\0\0\0\0\x01\0\0\0\x01\0\0\x02s1\0\0\0\x01\0\0\0\x0bbrowserName\0\0\0\0\x06chrome\0\0\0\0\0\0\0\x0a",
    ),
    // Another request is queued; a deadline that the choices don't give.
    (
        b"\0\0\0\0\0\0\0\0\x06\0\0\0\0\0\0\0\x02\0\x01\0\0\0\x01\0\0\0\x0bbrowserName\0\0\0\0\x06chrome\0\0\0\0\0\x04\x93\xea\0\0\0\0\0\0\0\x0a",
        b"\0\0\0\0\0\0\0\0\x06\0\0\0\0\0\0\0\x02\0\x01\0\0\0\x01\0\0\0\x0bbrowserName\0\0\0\0\x06chrome\0\0\0\0\0\x04\x93\xeb\0\0\0\0\0\0\0\x0a",
    ),
    // The other slot is held for it; no free request.
    (
        b"\0\0\0\0\0\0\0\0\x07\0\0\0\0\0\0\0\x02\0\0\0\x01\0\x01\0\0\0\0\0\0\0\0\0\x0a",
        b"\0\0\0\0\0\0\0\0\x07\0\0\0\0\0\0\0\x01\0\0\0\x01\0\x01\0\0\0\0\0\0\0\0\0\x0a",
    ),
    // That start fails, and settles it; it does settle the request.
    (
        b"\0\0\0\0\0\0\0\0\x09\0\0\0\0\0\0\0\x02\0\0\0\x01\0\x01\x01\0\x01\0\0\0\0\0\0\0\x14",
        b"\0\0\0\0\0\0\0\0\x09\0\0\0\0\0\0\0\x02\0\0\0\x01\0\x01\x01\0\0\0\0\0\0\0\0\0\x14",
    ),
    // Its outcome is taken; another caller queued the request.
    (
        b"\0\0\0\0\0\0\0\0\x0c\0\0\0\0\0\0\0\x02\0\0\0\0\0\0\0\x14",
        b"\0\0\0\0\0\0\0\x01\x0c\0\0\0\0\0\0\0\x02\0\0\0\0\0\0\0\x14",
    ),
    // The session is used; an outcome is handed out once.
    (
        b"\0\0\0\0\0\0\0\0\x0d\0\0\0\0\0\0\0\x01\0\0\0\0\0\0\0\x1e",
        b"\0\0\0\0\0\0\0\0\x0c\0\0\0\0\0\0\0\x02\0\0\0\0\0\0\0\x14",
    ),
    // It ends; a session that was used a moment ago.
    (
        b"\0\0\0\0\0\0\0\0\x0e\0\0\0\0\0\0\0\x01\0\0\0\0\0\0\0\0(",
        b"\0\0\0\0\0\0\0\0\x0e\0\0\0\0\0\0\0\x01\x01\0\0\0\0\0\0\0(",
    ),
    // Its slot is free; another caller ended it.
    (
        b"\0\0\0\0\0\0\0\0\x0f\0\0\0\x01\0\0",
        b"\0\0\0\0\0\0\0\x01\x0f\0\0\0\x01\0\0",
    ),
    // The node beats; before the clock.
    (
        b"\0\0\0\0\0\0\0\0\x02\0\0\0\x01\0\0\0\0\0\0\02",
        b"\0\0\0\0\0\0\0\0\x02\0\0\0\x01\0\0\0\0\0\0\0'",
    ),
    // A request is queued; no node.
    (
        b"\0\0\0\0\0\0\0\0\x06\0\0\0\0\0\0\0\x03\0\x01\0\0\0\x01\0\0\0\x0bbrowserName\0\0\0\0\x06chrome\0\0\0\0\0\x04\x94\x12\0\0\0\0\0\0\02",
        b"\0\0\0\0\0\0\0\0\x02\0\0\0\x02\0\0\0\0\0\0\02",
    ),
    // It is cleared; a session that has ended.
    (
        b"\0\0\0\0\0\0\0\0\x0b\0\0\0\0\0\0\0\x03\0\0\0\0\0\0\0<",
        b"\0\0\0\0\0\0\0\0\x0d\0\0\0\0\0\0\0\x01\0\0\0\0\0\0\0<",
    ),
    // The node is suspect; a node that gave a sign.
    (
        b"\0\0\0\0\0\0\0\0\x10\0\0\0\x01\0\0\0\0\0\x01\xd4\xf2",
        b"\0\0\0\0\0\0\0\0\x10\0\0\0\x01\0\0\0\0\0\x01\xd4\xf1",
    ),
    // A request is queued; a request that is settled.
    (
        b"\0\0\0\0\0\0\0\0\x06\0\0\0\0\0\0\0\x04\0\x01\0\0\0\x01\0\0\0\x0bbrowserName\0\0\0\0\x06chrome\0\0\0\0\0\x06h\xd2\0\0\0\0\0\x01\xd4\xf2",
        b"\0\0\0\0\0\0\0\0\x0b\0\0\0\0\0\0\0\x03\0\0\0\0\0\x01\xd4\xf2",
    ),
    // It times out; before the deadline.
    (
        b"\0\0\0\0\0\0\0\0\x0a\0\0\0\0\0\0\0\x04\0\0\0\0\0\x06h\xd2",
        b"\0\0\0\0\0\0\0\0\x0a\0\0\0\0\0\0\0\x04\0\0\0\0\0\x06h\xd1",
    ),
    // The node drains; a slot that is free.
    (
        b"\0\0\0\0\0\0\0\0\x03\0\0\0\x01\0\0\0\0\0\x06h\xd2",
        b"\0\0\0\0\0\0\0\0\x0f\0\0\0\x01\0\0",
    ),
    // It lapses; a node that drains already.
    (
        b"\0\0\0\0\0\0\0\0\x05\0\0\0\x01\0\0\0\0\0\x06h\xd2",
        b"\0\0\0\0\0\0\0\0\x03\0\0\0\x01\0\0\0\0\0\x06h\xd2",
    ),
    // Another one of its name registers; one that is down.
    (
        b"\0\0\0\0\0\0\0\0\x01\0\0\0\x02\0\0\0\x01a\x03n:1\0\x02\0\0\0\x01\0\0\0\x01\0\0\0\x0bbrowserName\0\0\0\0\x06chrome\0\x02\0\0\0\0\0\0\x06h\xd2",
        b"\0\0\0\0\0\0\0\0\x04\0\0\0\x01\0\0\0\0\0\x06h\xd2",
    ),
    // That is removed; one that is gone.
    (
        b"\0\0\0\0\0\0\0\0\x04\0\0\0\x02\0\0\0\0\0\x06h\xd2",
        b"\0\0\0\0\0\0\0\0\x05\0\0\0\x02\0\0\0\0\0\x06h\xd2",
    ),
];
