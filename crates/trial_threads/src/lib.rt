//! Threads that share a hub, and threads that share a count: a small value over a `TurnCell`, which shows the form for a larger one.
#![tactic(auto)]

mod adding;
mod counter;
mod crew;
mod linear;

pub use adding::{add, adds, find_spent};
pub use counter::Counter;
pub use crew::many_add;
pub use linear::{Linear, count_of_one_turn};

#[cfg(test)]
mod clients;
#[cfg(test)]
mod counting;
