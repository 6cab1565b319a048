//! What a hub enters, told on standard error.
ghost use Rattle.std.specs.Prelude.{◌≡◌, ℕ, ◌≤◌, None};

use crate::sights::Sights;
use grid_log::{Form, Recall, log_behind};
use grid_outside::{Clock, Failed, Sink};
use std::alloc::Global;
use std::str::from_utf8;
use std::sync::Wait;

/// Standard error, which takes lines of text. It tells no bytes.
#[derive(Drop)]
pub struct StandardError<'a, R: Eprint> {
    runtime: &'a R,
    faults: u64,
}

impl<'a, R: Eprint> StandardError<'a, R> {
    /// Writes by this runtime. No fault is counted yet.
    pub fn new(runtime: &'a R) -> Self
        ensures { result.faults ≡ 0 }
    {
        StandardError { runtime, faults: 0 }
    }
}

impl<R: Eprint> Sink for StandardError<'_, R> {
    ghost view = { λ s. record { taken = None; faults = s.faults } };

    /// A piece is taken whole, and one that is no text fails.
    fn write(&mut self, from: &[u8]) -> Result<usize, Failed> {
        if let Ok(text) = from_utf8(from) {
            if eprint!(self.runtime; "{text}").is_ok() {
                return Ok(from.len());
            }
        }
        self.faults = self.faults.saturating_add(1);
        Err(Failed)
    }
}

/// Tells what a hub enters behind what is past, in the lines of a log, until the hub is done. Where a line can't be written nothing more is told.
pub fn tell_all<R: Wait + Eprint, C: Clock>(
    alloc: Global,
    past: Recall,
    sights: &mut Sights<'_, R>,
    output: &mut StandardError<'_, R>,
    clock: &mut C,
) {
    let _ = log_behind(alloc, Form::Text, past, 0, sights, output, clock);
    sights.keep_on();
}
