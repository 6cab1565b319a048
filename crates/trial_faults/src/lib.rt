//! Trials of connections as tables have them, over a hub of one thread and over a shared one, where something goes wrong: a read, a
//! write or an exchange fails, bytes are malicious, a node misbehaves; and that neither the pieces in which bytes come and go make a
//! difference, nor calls that find nothing there on a connection that shares its thread; what goes before each request; how many
//! turns a relayed command takes; that neither a node that never answers nor clients that leave hold up anybody; and connections of teams
//! whose hubs threads share.
#![tactic(auto)]

#[cfg(test)]
mod beside;
#[cfg(test)]
mod callers;
#[cfg(test)]
mod either;
#[cfg(test)]
mod grid;
#[cfg(test)]
mod leaving;
#[cfg(test)]
mod left_start;
#[cfg(test)]
mod local;
#[cfg(test)]
mod plays;
#[cfg(test)]
mod seats;
#[cfg(test)]
mod table;
#[cfg(test)]
mod tables;
#[cfg(test)]
mod teams;
#[cfg(test)]
mod turns;
