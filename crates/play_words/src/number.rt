//! Decimal numbers without a sign or a leading zero.
ghost use Rattle.std.specs.Prelude.{◌≡◌, ◌≤◌, ◌<◌, ◌^◌, ℕ, IfSome, IfNone, decimal};

use itoa::Buffer;

/// The number from 1 to `most` that the word is.
pub(crate) fn number_of(word: &str, most: u32) -> Option<u32>
    ensures some { IfSome result (λ n. (1 ≤ n) × (n ≤ most) × (word.now ≡ decimal n)) }
    ensures none { IfNone result ((n : ℕ) → 1 ≤ n → n ≤ most → ¬ (word.now ≡ decimal n)) }
{
    match word.parse::<u32>() {
        Ok(number) => {
            let mut buffer = Buffer::new();
            if number >= 1 && number <= most && buffer.format(number) == word {
                Some(number)
            } else {
                None
            }
        }
        Err(_) => None,
    }
}

/// The number that the word is.
pub(crate) fn large_number_of(word: &str) -> Option<u64>
    ensures some { IfSome result (λ n. word.now ≡ decimal n) }
    ensures none { IfNone result ((n : ℕ) → n < 2 ^ 64 → ¬ (word.now ≡ decimal n)) }
{
    match word.parse::<u64>() {
        Ok(number) => {
            let mut buffer = Buffer::new();
            if buffer.format(number) == word {
                Some(number)
            } else {
                None
            }
        }
        Err(_) => None,
    }
}
