//! The options at the end of the words, each with its value.
ghost use Rattle.std.specs.Prelude.{◌≡◌, ℕ, Bool, IfSome, IfNone};
ghost use Rattle.std.specs.Option.{option_copied};
ghost use Rattle.play_words.specs.Options.{IsSplit, SaysRefusal, SaysTimeout};

use crate::number::number_of;
use grid_types::{HubConfig, Text};

/// The words before the option of this name, and its value; all words where they don't end with it.
pub(crate) fn option_of<'a>(words: &'a [Text], name: &str) -> (&'a [Text], Option<&'a str>)
    ensures { IsSplit name.now words.now result.0.now (option_copied result.1) }
{
    match words {
        [front @ .., option, value] => {
            if option.as_str() == name {
                (front, Some(value.as_str()))
            } else {
                (words, None)
            }
        }
        _ => (words, None),
    }
}

/// Whether a request is refused that no slot matches.
pub(crate) fn refusal_of(value: Option<&str>) -> Option<bool>
    ensures some { IfSome result (λ b. SaysRefusal (option_copied value.entry) b) }
    ensures none { IfNone result ((b : Bool) → ¬ SaysRefusal (option_copied value.entry) b) }
{
    match value {
        None => Some(false),
        Some(word) => {
            if word == "true" {
                Some(true)
            } else if word == "false" {
                Some(false)
            } else {
                None
            }
        }
    }
}

/// The milliseconds until a request times out.
pub(crate) fn timeout_of(value: Option<&str>) -> Option<u64>
    ensures some { IfSome result (λ ms. SaysTimeout (option_copied value.entry) ms) }
    ensures none { IfNone result ((ms : ℕ) → ¬ SaysTimeout (option_copied value.entry) ms) }
{
    match value {
        None => Some(HubConfig::default().timeout_ms),
        Some(word) => match number_of(word, 86_400) {
            Some(seconds) => Some(u64::from(seconds) * 1_000),
            None => None,
        },
    }
}
