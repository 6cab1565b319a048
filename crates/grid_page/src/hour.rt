//! What the picture of the last hour shows, and where it stands.
ghost use Rattle.std.specs.Prelude.{◌≡◌, ◌≤◌};
ghost use Rattle.grid_farm.specs.Known.{told_hour};
ghost use Rattle.grid_page.specs.Hour.{first_row, frame_of, height_of, left_of, most_created, most_unsettled, top_of};

use grid_farm::{LastHour, MinuteRow};

/// The last minute, and the most sessions and requests of the hour.
#[derive(Clone, Copy)]
pub struct Frame {
    pub minute: u64,
    pub created: u64,
    pub unsettled: u64,
}

fn most_created(least: u64, rows: &[MinuteRow]) -> u64
    ensures { result ≡ most_created least rows.now }
{
    let mut most = least;
    for row in rows {
        if row.created > most {
            most = row.created;
        }
    }
    most
}

fn most_unsettled(least: u64, rows: &[MinuteRow]) -> u64
    ensures { result ≡ most_unsettled least rows.now }
{
    let mut most = least;
    for row in rows {
        if row.unsettled > most {
            most = row.unsettled;
        }
    }
    most
}

/// What the hour's picture shows.
pub(crate) fn frame_of(hour: &LastHour) -> Frame
    ensures { result ≡ frame_of (told_hour hour.now) }
{
    let earlier = hour.earlier.as_slice();
    Frame {
        minute: hour.last.minute,
        created: most_created(hour.last.created, earlier),
        unsettled: most_unsettled(hour.last.unsettled, earlier),
    }
}

/// How far to the right a minute stands.
pub(crate) fn left_of(last: u64, minute: u64) -> u64
    ensures { result ≡ left_of last minute }
{
    let ago = last.saturating_sub(minute);
    if ago < 59 { 610 - 10 * ago } else { 20 }
}

/// How high a number stands: as a part of 100 of the most.
pub(crate) fn height_of(n: u64, most: u64) -> u64
    ensures value { result ≡ height_of n most }
    ensures most { result ≤ 100 }
{
    let parts = u128::from(n) * 100 / u128::from(if most < 1 { 1 } else { most });
    if parts < 100 { parts as u64 } else { 100 }
}

/// How far down its top is.
pub(crate) fn top_of(n: u64, most: u64) -> u64
    ensures { result ≡ top_of n most }
{
    110 - height_of(n, most)
}

/// The first minute that is known.
pub(crate) fn first_row(hour: &LastHour) -> MinuteRow
    ensures { result ≡ first_row (told_hour hour.now) }
{
    match hour.earlier.as_slice() {
        [first, ..] => *first,
        [] => hour.last,
    }
}
