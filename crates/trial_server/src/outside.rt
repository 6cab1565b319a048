//! What lies outside the hub: sockets, a line that is waited for, the loop node, the words of a play.
mod bursts;
mod kept;
mod late;
mod lines;
mod links;
mod looping;
mod outputs;
mod parts;
mod plays;
mod serving;
mod sockets;
mod tcp_lines;
mod tcp_nodes;
