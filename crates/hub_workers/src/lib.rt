//! What a shared hub does by itself, beside its connections: workers that start sessions, also
//! a crew of them beside each other, and a ticker that lets go what is over by its time.
//!
//! Choices that concern this crate alone:
//!
//! - A ticker makes no pause in a turn that ended out of memory. A start that finds the hub spent ends its worker's
//!   turn; what it holds is let go, since no turn can be had any more.
//! - A crew takes its tools as a list and not as a slice: for the work a tool stands in one element with the pass of
//!   its worker, since two mutable slices in one closure of a thread are not covered where one holds a type
//!   parameter, and an element can be moved out of a list and back. Tools are given out from the last one on and
//!   passes joined from the last worker taken, so both lists keep their order without a move of all elements.
#![tactic(auto)]

mod acts;
mod bench;
mod crews;
mod ends;
mod hands;
mod limits;
mod starting;
mod tick_seats;
mod tick_steps;
mod ticking;
mod tools;
mod work_seats;
mod work_steps;
mod working;

pub use acts::WorkAct;
pub use crews::crew;
pub use ends::WorkerEnd;
pub use limits::start_limit;
pub use starting::carry_out;
pub use tick_seats::{TickSeat, tickers_stay_at_work};
pub use ticking::ticker;
pub use tools::{CrewFault, Tool};
pub use work_seats::{WorkSeat, workers_stay_at_work};
pub use working::worker;
