//! Calls of the core, with what they enter: each makes its call and tells the entries that it made.

mod nodes;
mod requests;
mod sessions;
mod starts;

pub use nodes::{beat_as_told, beat_told, drain_told, register_told, remove_told};
pub use requests::{dispatch_told, enqueue_told, poll_told, withdraw_told};
pub use sessions::{end_told, expire_told, freed_told, touch_told};
pub use starts::{bind_told, fail_told};
