//! How long an exchange of a start may take. It is about time alone, so no promise rests on it.

/// The least, in milliseconds: a browser needs some seconds to come up.
const LEAST_START_MS: u64 = 30_000;

/// The most, in milliseconds.
const MOST_START_MS: u64 = 600_000;

/// How long an exchange of a start may take, in milliseconds, whose request has so many left: as many, but at least 30 s and at most
/// 600 s.
pub fn start_limit(left_ms: u64) -> u64 {
    left_ms.clamp(LEAST_START_MS, MOST_START_MS)
}
