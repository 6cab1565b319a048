//! The forms that a log is written in.

/// How lines are written.
#[derive(Clone, Copy, Debug, PartialEq, Eq)]
pub enum Form {
    /// A moment, what happened, and its facts as `key=value`, names in the quotes of JSON.
    Text,
    /// An object of JSON (RFC 8259) with the same facts.
    Json,
}
