//! A hub of one caller on which a driver makes its calls: that of one thread, or one that does more at each call.
#![tactic(auto)]

mod local;
mod own;

pub use own::{NoFault, OwnHub};
