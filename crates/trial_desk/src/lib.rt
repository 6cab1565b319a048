//! Trials of the hub of one caller: a desk that keeps its tokens, so that calls are made by numbers.
#![tactic(auto)]

mod answers;
mod calls;
mod desk;
mod drawers;
mod makings;
mod words;

pub use answers::{Answer, Closed, Fault, Held};
pub use calls::{Call, caps_of, choices_of, make, registration_of};
pub use desk::Desk;
pub use words::told;
