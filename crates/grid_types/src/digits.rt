//! Numbers in decimal digits.
ghost use Rattle.std.specs.Prelude.{◌≡◌, ◌≢◌, true, ◌+◌, ◌*◌, ◌≤◌, ◌<◌, ◌^◌, ℕ, MatchOption, decimal};
ghost use Rattle.std.specs.List.{list_all};
ghost use Rattle.std.specs.Char.{is_ascii_digit};
ghost use Rattle.std.specs.Str.Parse.{digits_value};

use crate::names::NodeNo;
use itoa::Buffer;
use std::str::from_utf8;

/// Whether the bytes are decimal digits alone. No bytes are.
pub fn are_digits(bytes: &[u8]) -> bool
    ensures { result ≡ list_all is_ascii_digit bytes.now }
{
    bytes.iter().all(|b| b.is_ascii_digit())
}

/// The number with one more digit, if that is at most `limit`.
fn with_digit(number: u64, digit: u64, limit: u64) -> Option<u64>
    requires within { number ≤ limit }
    requires digit { digit < 10 }
    ensures { MatchOption result (limit < number * 10 + digit)
        (λ n. (n ≡ number * 10 + digit) × (n ≤ limit)) }
{
    if digit > limit || number > (limit - digit) / 10 {
        None
    } else {
        Some(number * 10 + digit)
    }
}

/// The number that the digits write, if it is at most `limit`. Zeros may stand in front, and no digits write 0.
pub fn number_within(digits: &[u8], limit: u64) -> Option<u64>
    requires { list_all is_ascii_digit digits.now ≡ true }
    ensures { MatchOption result (limit < digits_value 10 digits.now)
        (λ n. (n ≡ digits_value 10 digits.now) × (n ≤ limit)) }
{
    let mut number: u64 = 0;
    for b in digits {
        let digit = u64::from(*b - b'0');
        match with_digit(number, digit, limit) {
            Some(longer) => number = longer,
            None => return None,
        }
    }
    Some(number)
}

/// The number that a node's id is: decimal digits without sign or leading zero, at most 4,294,967,295.
/// Any other text names no node.
pub fn node_number(id: &[u8]) -> Option<NodeNo>
    ensures { MatchOption result ((n : ℕ) → n < 2 ^ 32 → id.now ≢ decimal n)
        (λ n. id.now ≡ decimal n) }
{
    match from_utf8(id) {
        Ok(text) => number_of(text),
        Err(_) => None,
    }
}

/// What is parsed may have a sign and zeros before its digits, so it is written again.
fn number_of(text: &str) -> Option<NodeNo>
    ensures { MatchOption result ((n : ℕ) → n < 2 ^ 32 → text.now ≢ decimal n)
        (λ n. text.now ≡ decimal n) }
{
    match text.parse::<u32>() {
        Ok(number) => {
            let mut buffer = Buffer::new();
            if buffer.format(number) == text {
                Some(number)
            } else {
                None
            }
        }
        Err(_) => None,
    }
}
