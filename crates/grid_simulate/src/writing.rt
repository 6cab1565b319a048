//! A simulation's summary, written to an output.
ghost use Rattle.std.specs.Prelude.{◌≡◌, ◌⊎◌, ◌≤◌, IfOk, OnOk, OnErr};
ghost use Rattle.grid_outside.specs.Counts.{Rose, HasCause};
ghost use Rattle.grid_outside.specs.Told.{Gains, TookFront};
ghost use Rattle.grid_simulate.specs.Writing.{IsText, WroteAll, BrokeOff};

use crate::text::summary_text;
use crate::top::simulate;
use grid_outside::{Sink, write_all};
use grid_types::{NoMemory, Text};
use std::alloc::Global;

/// The whole summary was written.
const DONE: u8 = 0;

/// A write failed.
const WRITE_FAILED: u8 = 4;

/// Memory was wanted and there was none.
const NO_MEMORY: u8 = 5;

/// The text of the summary of a number's simulation.
fn text_of(alloc: Global, number: u64) -> Result<Text, NoMemory>
    ensures { IfOk result (λ text. IsText number text) }
{
    let simulated = simulate(alloc, number)?;
    summary_text(alloc, number, &simulated.summary)
}

/// Writes a text: 0 where all of it was written, 4 where a write failed.
fn write_text<K: Sink>(output: &mut K, text: &Text) -> u8
    ensures statuses { (result ≡ 0) ⊎ (result ≡ 4) }
    ensures whole { result ≡ 0 → Gains (K.view output.old).taken (K.view output.new).taken
        text.now }
    ensures broken { result ≡ 4 → TookFront (K.view output.old).taken (K.view output.new).taken
        text.now }
    ensures cause { result ≡ 4 → Rose (K.view output.old).faults (K.view output.new).faults }
    ensures later { (K.view output.old).faults ≤ (K.view output.new).faults }
{
    match write_all(output, text.as_str().as_bytes()) {
        Ok(()) => DONE,
        Err(_) => WRITE_FAILED,
    }
}

/// Makes the simulation of a number and writes its summary: the status of a program that does just that. It is 0
/// exactly where the whole summary was written, 4 where a write failed, and 5 out of memory.
pub fn write_simulation<K: Sink>(alloc: Global, number: u64, output: &mut K) -> u8
    ensures statuses { (result ≡ 0) ⊎ ((result ≡ 4) ⊎ (result ≡ 5)) }
    ensures whole { result ≡ 0 → WroteAll number (K.view output.old).taken
        (K.view output.new).taken }
    ensures broken { result ≡ 4 → BrokeOff number (K.view output.old).taken
        (K.view output.new).taken }
    ensures cause { result ≡ 4 → Rose (K.view output.old).faults (K.view output.new).faults }
    ensures nothing { result ≡ 5 → (K.view output.new).taken ≡ (K.view output.old).taken }
    ensures later { (K.view output.old).faults ≤ (K.view output.new).faults }
{
    match text_of(alloc, number) {
        Ok(text) => write_text(output, &text),
        Err(NoMemory) => NO_MEMORY,
    }
}
