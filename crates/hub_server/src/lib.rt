//! The hub as a program over any door: loops, threads that each drive many of the links that come in, and workers and tickers
//! on a thread beside them.
//!
//! Choices that concern this crate alone:
//!
//! - There are at most eight loops: more gain little, since all of them take turns at the one hub. Where no thread can be made
//!   when the program begins, loops wait for each other, and it serves nobody.
//! - Connections start sessions by themselves at each poll, so the hub serves without workers too.
//! - Each worker and each ticker has a clock of its own, so none is told a moment that another one asked for.
//! - All loops take links from one channel with room for one, so a loop without a free place holds up no link that another
//!   could take.
//! - A connection's pass serves the next one when it is over. Passes are dropped and not joined when the hub ends: what a thread did
//!   to them is told to nobody, and the hub ends with it.
//! - Each loop takes the memory for its table when it begins, so that later only the connections themselves take some.
//! - The program's texts on standard error come from a door around the real one, in `grid_console`: `hub_main` knows
//!   nothing of them.
#![tactic(auto)]

mod accepting;
mod begins;
mod beside;
mod crowd;
mod diary;
mod handling;
mod hands;
mod looping;
mod passes;
mod top;

pub use begins::{Begins, NewHub, Unbegun};
pub use top::{hub_main, hub_main_by};
