//! What a call of the hub enters, told to a piece of a journal: from its answer and from little that is known before it. Nothing
//! is cloned.
//!
//! Choices that concern this crate alone:
//!
//! - A teller (`told_beat`) is handed no hub. What it has to know of one is a premise on the history before the call, so that
//!   one contract serves each hub that answers as the definitions say.
//! - A call with what it enters (`beat_told`) asks the core before the call what its teller has to know, makes the call and
//!   tells it. What the call took with it, as a registration, is lent by the core behind the call.
//! - `now` is the moment of the call, raised to the clock from before it. A call that answered out of memory entered nothing.
//! - A sweep and a clear are told change by change, by a recorder that has the piece while the call goes on.
#![tactic(auto)]

mod calls;
mod changes;
mod nodes;
mod requests;
mod sessions;
mod starts;
mod sweeping;
mod telling;

pub use calls::{
    beat_as_told, beat_told, bind_told, dispatch_told, drain_told, end_told, enqueue_told,
    expire_told, fail_told, freed_told, poll_told, register_told, remove_told, touch_told,
    withdraw_told,
};
pub use changes::told_change;
pub use nodes::{told_beat, told_drain, told_register, told_remove};
pub use requests::{told_dispatch, told_enqueue, told_poll, told_withdraw};
pub use sessions::{told_end, told_expire, told_freed, told_touch};
pub use starts::{Standing, Start, told_bind, told_fail, told_unkept};
pub use sweeping::{clear_told, sweep_told};
