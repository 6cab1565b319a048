//! The number of a node in the answer to its registration.
ghost use Rattle.std.specs.Prelude.{◌≡◌, ◌≢◌, ◌<◌, ◌^◌, ◌++◌, List, ℕ, MatchOption};
ghost use Rattle.node_signs.specs.Signs.{registered_bytes};

use grid_types::{NodeNo, node_number};

/// What stands between the two, if the bytes begin and end with them.
fn between<'a>(bytes: &'a [u8], before: &[u8], behind: &[u8]) -> Option<&'a [u8]>
    ensures { MatchOption result ((x : List ℕ) → bytes.entry.now ≢ before.now ++ (x ++ behind.now))
        (λ x. bytes.entry.now ≡ before.now ++ (x.now ++ behind.now)) }
{
    match bytes.strip_prefix(before) {
        Some(rest) => rest.strip_suffix(behind),
        None => None,
    }
}

/// The number that the answer to a registration gives; None where it gives none.
pub fn number_told(body: &[u8]) -> Option<NodeNo>
    ensures { MatchOption result ((n : ℕ) → n < 2 ^ 32 → ¬ (body.now ≡ registered_bytes n))
        (λ n. body.now ≡ registered_bytes n) }
{
    match between(body, b"{\"value\":{\"node\":", b"}}") {
        Some(digits) => node_number(digits),
        None => None,
    }
}
