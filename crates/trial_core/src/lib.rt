//! Plays of the hub of one caller, what a dispatch compares in worked cases, and calls with memory refused in turn; worked cases of the
//! rules below it; starts carried to their ends; and its journals: simulations, their check, their log, what they tell of a farm, and a
//! hub that keeps its own.
#![tactic(auto)]

#[cfg(test)]
mod costs;
#[cfg(test)]
mod journal;
#[cfg(test)]
mod plays;
#[cfg(test)]
mod refused_memory;
#[cfg(test)]
mod rules;
#[cfg(test)]
mod starts;
