//! Verdicts on small journals.
use crate::journal::entries::{HEAD, HISTORY};
use crate::journal::plays::{front_of, verdict};
use journal_verdicts::Verdict;
use std::alloc::Global;

/// Behind the head the entry that caller 0 frees slot 0 of node 1: a slot that is free is not freed.
const FREED: &[u8] =
    b"GRIDJ001\0\0\0\0\0\x04\x93\xe0\0\0\0\0\0\x04\x93\xe0\0\0\0\0\0\x01\xd4\xc0\0\0'\x10\0\0\0\0\x01\0\0\0\0\0\0\0\x01\0\0\0\0\0\x03\xa9\x80\0\0\0\0\0\0\0\0\x0f\0\0\0\x01\0\0";

/// Behind the head nine bytes that begin no entry.
const WORSE: &[u8] =
    b"GRIDJ001\0\0\0\0\0\x04\x93\xe0\0\0\0\0\0\x04\x93\xe0\0\0\0\0\0\x01\xd4\xc0\0\0'\x10\0\0\0\0\x01\0\0\0\0\0\0\0\x01\0\0\0\0\0\x03\xa9\x80\0\0\0\0\0\0\0\0\x11";

/// Bytes, how many of them, and the verdict on these.
const VERDICTS: &[(&[u8], usize, Verdict)] = &[
    (HEAD, 57, Verdict::Legal { entries: 0 }),
    (HEAD, 56, Verdict::Cut { at: 0 }),
    (HEAD, 0, Verdict::Cut { at: 0 }),
    (b"GRIDJ002", 8, Verdict::NotJournal),
    (b"H", 1, Verdict::NotJournal),
    (FREED, 72, Verdict::Illegal { entry: 0 }),
    (FREED, 58, Verdict::Cut { at: 57 }),
    (WORSE, 66, Verdict::Bad { at: 57 }),
];

fn are_so(alloc: Global, rows: &[(&[u8], usize, Verdict)]) -> bool {
    for (bytes, count, wanted) in rows {
        if verdict(alloc, front_of(bytes, *count), 9) != Some(*wanted) {
            return false;
        }
    }
    true
}

/// Whether the front is legal, and is not with the entry behind it that may not follow. Its entry is put behind it then.
fn goes_on(
    alloc: Global,
    journal: &mut Vec<u8>,
    entries: u64,
    entry: &[u8],
    refused: &[u8],
) -> Option<bool> {
    let length = journal.len();
    let legal = verdict(alloc, journal.as_slice(), 64)?;
    journal.extend_from_slice(refused).ok()?;
    let illegal = verdict(alloc, journal.as_slice(), 64)?;
    journal.truncate(length);
    journal.extend_from_slice(entry).ok()?;
    Some(legal == Verdict::Legal { entries } && illegal == Verdict::Illegal { entry: entries })
}

fn all_go_on(alloc: Global, journal: &mut Vec<u8>) -> Option<bool> {
    journal.extend_from_slice(HEAD).ok()?;
    let mut entries = 0u64;
    for (entry, refused) in HISTORY {
        if !goes_on(alloc, journal, entries, entry, refused)? {
            return Some(false);
        }
        entries = entries.saturating_add(1);
    }
    let whole = verdict(alloc, journal.as_slice(), 64)?;
    Some(whole == Verdict::Legal { entries: 21 })
}

#[test]
fn each_front_of_the_history_is_legal_and_one_entry_more_may_not_follow(rt: HostRuntime) {
    let so = all_go_on(rt.alloc(), &mut Vec::new(rt.alloc()));
    assert!(rt; so == Some(true));
}

#[test]
fn bytes_that_are_no_journal(rt: HostRuntime) {
    assert!(rt; are_so(rt.alloc(), VERDICTS));
}
