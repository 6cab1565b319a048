//! What a simulation has.
use grid_types::{ReqNo, SessionId};
use hub_core::{LocalHub, Reservation, Ticket};
use loop_node::LoopNodes;

/// A session that was bound, with its binding.
#[derive(Clone, Copy)]
pub(crate) struct Kept {
    pub(crate) session: SessionId,
    pub(crate) binding: ReqNo,
}

/// A hub with its nodes, the generator, the moment, and the tokens and sessions that are kept.
#[derive(Drop)]
pub(crate) struct Simulation {
    pub(crate) number: u64,
    pub(crate) moment: u64,
    pub(crate) hub: LocalHub,
    pub(crate) nodes: LoopNodes,
    pub(crate) tickets: Vec<Ticket>,
    pub(crate) reservations: Vec<Reservation>,
    pub(crate) sessions: Vec<Kept>,
}
