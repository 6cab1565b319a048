//! The last hour of a journal.
ghost use Rattle.std.specs.Prelude.{◌≡◌, ◌++◌, ◌∷◌, [], filter, OnOk};
ghost use Rattle.grid_farm.specs.Hours.{clock_after, hour_after, is_within_hour, minute_of, no_hour, row_with};
ghost use Rattle.grid_farm.specs.Known.{told_hour};

use crate::rows::MinuteRow;
use grid_log::moment_of;
use grid_types::{Change, NoMemory};
use std::alloc::Global;

/// How many milliseconds a minute has.
const MINUTE_MS: u64 = 60_000;

/// How many minutes an hour has.
const MINUTES: u64 = 60;

/// The minute of the last entry, and those before it within an hour, the oldest first.
#[derive(Drop)]
pub struct LastHour {
    pub last: MinuteRow,
    pub earlier: Vec<MinuteRow>,
}

/// The greatest moment so far.
pub(crate) fn clock_after(at: u64, change: &Change) -> u64
    ensures { result ≡ clock_after at change.now }
{
    match moment_of(change) {
        Some(moment) if moment > at => moment,
        _ => at,
    }
}

/// The number of a moment's minute.
pub fn minute_of(at: u64) -> u64
    ensures { result ≡ minute_of at }
{
    at / MINUTE_MS
}

fn is_within_hour(minute: u64, row: &MinuteRow) -> bool
    ensures { result ≡ is_within_hour minute row.now }
{
    minute.saturating_sub(row.minute) < MINUTES
}

fn row_with(row: MinuteRow, created: u64, unsettled: u64) -> MinuteRow
    ensures { result ≡ row_with row created unsettled }
{
    MinuteRow {
        minute: row.minute,
        created: row.created.saturating_add(created),
        unsettled,
    }
}

/// Drops the minutes that lie an hour and more before this one.
fn drop_old(rows: &mut Vec<MinuteRow>, minute: u64)
    ensures { rows.new.items ≡ filter (is_within_hour minute) rows.old.items }
{
    rows.retain(|row| is_within_hour(minute, row));
}

impl LastHour {
    /// Nothing happened yet. It takes no memory.
    pub(crate) fn new(alloc: Global) -> LastHour
        ensures { told_hour result ≡ no_hour }
    {
        LastHour {
            last: MinuteRow {
                minute: 0,
                created: 0,
                unsettled: 0,
            },
            earlier: Vec::new(alloc),
        }
    }

    /// Takes note of an entry of a minute in which so many sessions were created, and behind which so many requests are not settled.
    pub(crate) fn note(&mut self, minute: u64, created: u64, unsettled: u64) -> Result<(), NoMemory>
        ensures { OnOk result (told_hour self.new
            ≡ hour_after (told_hour self.old) minute created unsettled) }
    {
        if self.last.minute == minute {
            self.last = row_with(self.last, created, unsettled);
            return Ok(());
        }
        if self.earlier.push(self.last).is_err() {
            return Err(NoMemory);
        }
        drop_old(&mut self.earlier, minute);
        self.last = MinuteRow {
            minute,
            created,
            unsettled,
        };
        Ok(())
    }
}
