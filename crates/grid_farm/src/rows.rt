//! What is known of slots, and of minutes.

use grid_types::{ReqNo, SlotId};

/// What a slot is used for that is not free.
#[derive(Clone, Copy, Debug, PartialEq, Eq)]
pub enum SlotUse {
    /// A session is started there for this request.
    Starting(ReqNo),
    /// A session runs there.
    Busy,
    /// A session is ended there.
    Closing,
}

/// A slot that is not free.
#[derive(Clone, Copy)]
pub struct UseRow {
    pub slot: SlotId,
    pub state: SlotUse,
}

/// A minute in which something happened.
#[derive(Clone, Copy, Debug, PartialEq, Eq)]
pub struct MinuteRow {
    /// Its number since the clock began.
    pub minute: u64,
    /// How many sessions were created in it.
    pub created: u64,
    /// How many requests were not settled behind its last entry.
    pub unsettled: u64,
}
