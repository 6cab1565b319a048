//! The outside over the real world: TCP (RFC 9293) and the machine's clock. These adapters tell no bytes.
//!
//! Choices that concern this crate alone:
//!
//! - Nothing may be silent for ever: a client 30 s on a new connection and 300 s later, as long as a session may be idle by
//!   default; a node 10 s until it is connected, 30 s where the hub itself ends a session, and else 600 s, or as long as
//!   the exchange was allowed to take. A later call fails, so it counts as a fault; no contract speaks of it. Where no call waits, it is the next call that finds this: whoever drives such lines tries each now and then.
//! - A start that is given up because its time is over is read on for up to 600 s from its beginning, beside all else: where its
//!   node made the session after all, the node is asked to end it.
//! - A connection to a node is kept for up to a second behind a reply that leaves it open, and any exchange but a start may go over
//!   it. It is looked at first: one that its node has closed is let go with not a byte sent. Where it breaks before a byte of the
//!   reply came, `GET` and `DELETE` are sent once more over a new one; nothing else is, so that no node is asked twice.
//! - Where a client sends nothing more, and an answer comes 5 ms or more after its last byte, the last byte of the answer is held
//!   back for 100 ms: where the client was ended its system refuses the others, and the write fails. So a session that was created
//!   for it is ended. Whoever only shut its writing half down has its answer then.
//! - `accept` goes on by itself after what concerns one client and, with a pause of 15 ms, while the system lacks
//!   descriptors, without a count of tries. Only what ends the listener is a fault, so no client ends the hub.
//! - A client's line waits from `accept` on, in each call for at most 30 s, so that a thread may serve it alone. Once a gate
//!   takes it in, none of its calls waits.
//! - A connection that ends while its client may still send is read on for up to 2 s or 64 MiB, so that the last answer
//!   reaches its client: by its gate, or by the thread that lets go of it where no gate took it in.
#![tactic(auto)]

mod connections;
mod door;
mod exchanges;
mod gate;
mod holding;
mod late;
mod lines;
mod machine;
mod parting;
mod silence;
mod spares;
mod under_way;
mod ways;

pub use connections::TcpNodes;
pub use door::TcpDoor;
pub use exchanges::TcpNodeLine;
pub use gate::TcpGate;
pub use lines::TcpLine;
pub use machine::MachineClock;
