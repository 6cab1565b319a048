//! The counts and gauges of a hub's journal, in the text format of Prometheus.
#![tactic(auto)]

mod counts;
mod gauges;
mod rows;

pub use gauges::metrics;
pub use rows::Metrics;
