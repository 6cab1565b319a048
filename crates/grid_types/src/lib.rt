//! The types that every crate of the grid speaks of, and (in `specs/`) what they mean: the history of a hub,
//! what each fact about it is, which entries may follow, and what the hub of one thread answers.
#![tactic(auto)]

mod capabilities;
mod config;
mod digits;
mod entry;
mod laws;
mod limits;
mod names;
mod queue_time;
mod request_size;
mod spent;
mod text;
mod view;
mod worked;

pub use capabilities::{Cap, CapValue, Caps, Choices, Groups, Registration, SlotGroup};
pub use config::HubConfig;
pub use digits::{are_digits, node_number, number_within};
pub use entry::{Change, EndCause, Entry, FailWhy, Found, Outcome};
pub use laws::{
    calls_give_good_tokens, calls_stay_legal, chosen_is_first, history_laws, legal_is_safe,
    live_is_running, map_finds_live, numbered_one_by_one, one_more_entry, tokens_stay_good,
    tokens_tell_the_same,
};
pub use limits::{
    LAST_MOMENT, LEAST_IDLE_MS, LEAST_LAPSE_MS, LEAST_QUEUE_TIME_MS, MOST_CHOICES, MOST_DOWN_MS,
    MOST_DRAIN_AFTER, MOST_IDLE_MS, MOST_LAPSE_MS, MOST_NAME_BYTES, MOST_NODES, MOST_QUEUE_BYTES,
    MOST_QUEUE_TIME_MS, MOST_REQUESTS, MOST_SESSIONS, MOST_SLOTS, fixed_limits,
};
pub use names::{
    Moment, NodeAddress, NodeNo, ReqNo, SessionId, SlotId, Words, are_address_bytes,
    are_node_name_bytes, are_session_bytes,
};
pub use queue_time::{QUEUE_TIME_NAME, queue_time_name, time_of_value, time_to_wait};
pub use request_size::request_bytes;
pub use spent::Spent;
pub use text::{Bytes, NoMemory, Text};
pub use view::{NodeView, NodeViews, SlotState, SlotViews, Standing, View, WaitView, WaitViews};
pub use worked::{full_grid, worked_histories};
