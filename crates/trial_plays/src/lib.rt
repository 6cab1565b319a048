//! Trials of whole connections in one thread: what comes in, what is written, and the status; of a hub that keeps its calls; and tables of
//! the texts that connections are made of.
#![tactic(auto)]

#[cfg(test)]
mod asked;
#[cfg(test)]
mod failures;
#[cfg(test)]
mod keeper;
#[cfg(test)]
mod messages;
#[cfg(test)]
mod nodes;
#[cfg(test)]
mod pieces;
#[cfg(test)]
mod requests;
#[cfg(test)]
mod rows;
#[cfg(test)]
mod sessions;
#[cfg(test)]
mod teams;
#[cfg(test)]
mod texts;
#[cfg(test)]
mod words;
