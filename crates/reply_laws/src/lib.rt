//! Which changes a call made, by its reply and by little that is known before it. It serves whoever writes entries down beside
//! a hub that tells none.
#![tactic(auto)]

mod laws;

pub use laws::calls_make;
