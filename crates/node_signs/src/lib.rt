//! What a node tells the hub of itself: its registration, and its beats.
#![tactic(auto)]

mod body;
mod contact;
mod number;
mod signs;

pub use body::{beat_body, registration_body};
pub use contact::Contact;
pub use number::number_told;
pub use signs::{Beat, SERVED, fixed_status, register, send_beat};
