//! Trials of the running hub, which show what no clause says: that its parts run beside each other; of the programs' arguments, with a
//! node and a driver as their programs run them; and of what lies outside the hub: sockets, a line that is waited for, the loop node.
#![tactic(auto)]

#[cfg(test)]
mod configured;
#[cfg(test)]
mod examples;
#[cfg(test)]
mod gates;
#[cfg(test)]
mod held;
#[cfg(test)]
mod held_gate;
#[cfg(test)]
mod loopback;
#[cfg(test)]
mod outside;
#[cfg(test)]
mod programs;
#[cfg(test)]
mod starting;
#[cfg(test)]
mod tests;
#[cfg(test)]
mod texts;
