//! What a request to the hub calls for: its calls of the hub, its exchanges with nodes and its pauses, one after the other, and
//! its response; and what is left to do where its client can't be told, since it has left, a write failed or memory was wanted. Each
//! answer is taken by a function of its own, which does nothing outside itself and says what comes next.
#![tactic(auto)]

mod calling;
mod creating;
mod deleting;
mod laws;
mod messages;
mod relaying;
mod request;
pub mod responses;
mod routing;
mod running;
mod turn;
mod undoing;
mod wants;
mod work;

pub use calling::{Asked, Calling};
pub use creating::Creating;
pub use deleting::{Deleting, Quitted};
pub use laws::{fixed_limits, scripts_find_spent_last, scripts_pause_behind_early_calls};
pub use relaying::Relaying;
pub use request::Whole;
pub use responses::refusal;
pub use routing::first_turn;
pub use turn::{Run, Turn};
pub use undoing::Undoing;
pub use wants::{Answer, ConnFault, End, HubAnswer, HubCall, LIMIT, PAUSE, PIECE, Served, Want};
pub use work::first_turns_are_within;
