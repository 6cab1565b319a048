//! Laws of the definitions about requests that wait: what a dispatch that found nothing tells of later ones, which requests the same
//! slots fit, how many starts a request may still get, and how long it may still be polled. They serve whoever keeps an index behind
//! the definitions, or has to show that a request comes to its end.
#![tactic(auto)]

mod dispatch;
mod starts;

pub use dispatch::{kind_laws, kinds_tell, leads_are_few, nothing_stays};
pub use starts::{
    calls_keep_the_clock, calls_keep_the_newest_request, polls_are_early, starts_run_out,
};
