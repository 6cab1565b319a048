//! Where tokens come from: no token is good after a call that was not good before it, unless the call's reply gives it. It serves
//! whoever keeps all open tokens in a table and has to know that none is missing there.
#![tactic(auto)]

mod laws;

pub use laws::tokens_come_from_replies;
